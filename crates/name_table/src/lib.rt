#![tactic(auto)]
// The names of a table, written into the lent slice when the text is read. Each name of the text is listed at its first place, by the index of its token and 1; those that an entry holds
// are struck out; the ones struck out are written, in the order of the tokens.
ghost use Rattle.std.specs.Prelude.{◌≡◌, [], ◌∷◌, ◌+◌, ◌*◌, ◌^◌, ◌≤◌, ◌<◌, length, set};
ghost use Rattle.definition.specs.Limit.{max_names};
ghost use Rattle.definition.specs.Name.{offset_of, length_of};
ghost use Rattle.definition.specs.Region.{words_length, names_at};
ghost use Rattle.definition_laws.specs.Columns.{Columns};
ghost use Rattle.encoding.specs.Kinds.{kind_numbers};
ghost use Rattle.table.specs.Held.{Room};
ghost use Rattle.name_table.specs.Names.{is_first, HeldWords, Writes};
ghost use Rattle.name_table.specs.Striking.{column, PlacesBelow, Listed, Struck, Strikes, is_found, Ready, Fills, PlainWords, WritesPlain};

use encoding::names::Name;
use encoding::regions::{
    DECLARATION_COLUMNS, DECLARATION_NAME, DECLARATIONS_AT, MEMBER_COLUMNS, MEMBER_NAME,
    MEMBERS_AT, NAME_COLUMNS, NAMES_AT, PARAMETER_COLUMNS, PARAMETER_NAME, PARAMETERS_AT,
    ROW_COLUMNS, ROW_NAME, VALUE_COLUMNS, VALUE_NAME, VALUES_AT,
};
use encoding::token_kinds::TokenKind;
use erasing::clear_index;
use table::Cursor;
use words::classes::is_name;

// The columns of a text's tokens.
#[derive(Clone, Copy)]
struct Tokens<'a> {
    kinds: &'a [TokenKind],
    places: &'a [u32],
    numbers: &'a [u64],
    ghost columns: { Columns (kind_numbers kinds.now) places.now numbers.now },
}

impl Tokens<'_> {
    // A token is a name at the first place of its spelling.
    #[tactic(auto, using(encoding::proofs::KindColumns::columns_read))]
    fn is_first(&self, i: usize) -> bool
        requires { i < length (kind_numbers self.now.kinds.now) }
        ensures { result ≡ is_first (kind_numbers self.now.kinds.now) self.now.places.now self.now.numbers.now i }
    {
        is_name(self.kinds[i]) & (Name::numbered(self.numbers[i]).offset == self.places[i] as usize)
    }

    // A token is a name at its first place, and was struck out.
    fn is_found(&self, i: usize, listed: &[u16]) -> bool
        requires in_bounds { i < length (kind_numbers self.now.kinds.now) }
        requires places_below { PlacesBelow self.now.places.now (length listed.now) }
        ensures { result ≡ is_found (kind_numbers self.now.kinds.now) self.now.places.now self.now.numbers.now listed.now i }
    {
        self.is_first(i) & (listed[self.places[i] as usize] == 0)
    }

    // Lists each name of the text at its first place.
    #[tactic(auto, using(crate::proofs::Crossing::list_none, crate::proofs::Crossing::list_more, crate::proofs::Crossing::list_same, crate::proofs::Crossing::list_all, crate::proofs::Crossing::few_tokens))]
    fn list(&self, listed: &mut [u16])
        requires { PlacesBelow self.now.places.now (length listed.old) }
        ensures { Listed (kind_numbers self.now.kinds.now) self.now.places.now self.now.numbers.now listed.new }
    {
        for i in 0..self.places.len() {
            if self.is_first(i) {
                listed[self.places[i] as usize] = (i + 1) as u16;
            }
        }
    }

    // Writes the names that were struck out; their number.
    #[tactic(auto, using(crate::proofs::Filling::write_start, crate::proofs::Filling::write_take, crate::proofs::Filling::write_skip, crate::proofs::Filling::write_end, crate::proofs::Filling::write_room, crate::proofs::Filling::plain_long))]
    fn write(&self, listed: &[u16], w: &mut [u32]) -> usize
        requires { Ready (kind_numbers self.now.kinds.now) self.now.places.now self.now.numbers.now listed.now w.old }
        ensures { Fills (kind_numbers self.now.kinds.now) self.now.places.now self.now.numbers.now listed.now w.old result w.new }
    {
        let mut count = 0;
        for i in 0..self.places.len() {
            if self.is_found(i, listed) {
                put_name(w, count, self.numbers[i]);
                count += 1;
            }
        }
        count
    }

    // Fills the names' part of the slice by a list that has a number for every place.
    #[tactic(auto, using(crate::proofs::Holding::ready, crate::proofs::Holding::filled))]
    fn fill(&self, listed: &mut [u16], w: &mut [u32], c: Cursor) -> usize
        requires places_below { PlacesBelow self.now.places.now (length listed.old) }
        requires plain_words { PlainWords c w.old }
        ensures { WritesPlain (kind_numbers self.now.kinds.now) self.now.places.now self.now.numbers.now c w.old result w.new }
    {
        self.list(listed);
        strike_all(w, c, self.numbers, listed);
        self.write(listed, w)
    }
}

// Strikes out a name where it is listed: at its offset, if at all. What stands in the list elsewhere may be any number.
#[tactic(auto, using(crate::proofs::Crossing::strike_it, crate::proofs::Crossing::strike_no), unfolding(definition::specs::Name::offset_of))]
fn strike_name(name: u32, numbers: &[u64], listed: &mut [u16])
    ensures { Struck numbers.now (name ∷ []) listed.old listed.new }
{
    let name = u64::from(name);
    let slot = Name::numbered(name).offset;
    if let Some(listed_as) = listed.get(slot)
        && let Some(token) = usize::from(*listed_as).checked_sub(1)
        && let Some(number) = numbers.get(token)
        && *number == name
    {
        listed[slot] = 0;
    }
}

// Strikes out the names of a region's entries.
#[tactic(auto, using(crate::proofs::Crossing::strike_start, crate::proofs::Crossing::strike_more))]
fn strike(w: &[u32], start: usize, width: usize, count: usize, numbers: &[u64], listed: &mut [u16])
    requires width_nonzero { 0 < width }
    requires count_in_bounds { start + width * count ≤ length w.now }
    ensures { Struck numbers.now (column w.now start width count) listed.old listed.new }
{
    for i in 0..count {
        strike_name(w[start + width * i], numbers, listed);
    }
}

// Strikes out every name that an entry holds.
#[tactic(auto, using(crate::proofs::Holding::all_struck))]
fn strike_all(w: &[u32], c: Cursor, numbers: &[u64], listed: &mut [u16])
    requires w_len { length w.now ≡ words_length }
    requires room { Room c }
    ensures { Strikes w.now c numbers.now listed.old listed.new }
{
    strike(w, ROW_NAME, ROW_COLUMNS, c.rows, numbers, listed);
    strike(
        w,
        MEMBERS_AT + MEMBER_NAME,
        MEMBER_COLUMNS,
        c.members,
        numbers,
        listed,
    );
    strike(
        w,
        VALUES_AT + VALUE_NAME,
        VALUE_COLUMNS,
        c.values,
        numbers,
        listed,
    );
    strike(
        w,
        PARAMETERS_AT + PARAMETER_NAME,
        PARAMETER_COLUMNS,
        c.parameters,
        numbers,
        listed,
    );
    strike(
        w,
        DECLARATIONS_AT + DECLARATION_NAME,
        DECLARATION_COLUMNS,
        c.declarations,
        numbers,
        listed,
    );
}

// Writes a name, the next after so many.
#[tactic(auto, unfolding(definition::specs::Name::offset_of, definition::specs::Name::length_of))]
fn put_name(w: &mut [u32], count: usize, name: u64)
    requires w_len { length w.old ≡ words_length }
    requires room { count < max_names }
    requires fits { name < 2 ^ 32 }
    ensures { w.new ≡ set (set w.old (names_at + 2 * count) (offset_of name)) (names_at + 2 * count + 1) (length_of name) }
{
    let name = Name::numbered(name);
    let at = NAMES_AT + NAME_COLUMNS * count;
    w[at] = name.offset as u32;
    w[at + 1] = name.length as u32;
}

// Fills the names' part of the slice, in place of the index, with the names that the table's entries hold; their number. The columns are those of a text's tokens. The list is scratch:
// it has a number for every place, no one reads it after, and what is left in it is free.
#[tactic(auto, using(crate::proofs::Holding::plain_words, crate::proofs::Holding::writes))]
pub fn fill_names(
    kinds: &[TokenKind],
    places: &[u32],
    numbers: &[u64],
    listed: &mut [u16],
    w: &mut [u32],
    c: Cursor,
) -> usize
    requires columns { Columns (kind_numbers kinds.now) places.now numbers.now }
    requires places_below { PlacesBelow places.now (length listed.old) }
    requires held_words { HeldWords c w.old }
    ensures writes { Writes (kind_numbers kinds.now) places.now numbers.now c w.old result w.new }
    ensures listed_len_unchanged { length listed.new ≡ length listed.old }
{
    clear_index(w);
    Tokens {
        kinds,
        places,
        numbers,
    }
    .fill(listed, w, c)
}
