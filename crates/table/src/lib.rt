#![tactic(auto)]
// The table over lent slices. Lent.antt of the definition says which number stands where:
//
//                 w: &mut [u32], 78,848 long                           d: &mut [u64], 9,216        v: &mut [i64], 4,096
//   rows          6 * n           kind target flags name first count   n              extent
//   members       6,144 + 4 * i   row type name width                  1,024 + 2 * i  offset, first bit
//   values        22,528 + 2 * i  row name                                                         i  value
//   parameters    30,720 + 3 * i  row type name
//   declarations  43,008 + 3 * i  storage type name
//   names         46,080 + 2 * i  offset length
//
// A width is 0 for a plain member, else 1 more than the bit-field's. While the text is read an index stands in the place of the names (Held.antt). A cursor goes along by value: the
// token not yet read, and how many of each there are; entries after these are zero, so that every read is total: 0 past the end.
ghost use Rattle.std.specs.Prelude.{◌≡◌, ◌+◌, ◌*◌, ◌≤◌, ◌<◌, eqb, length, get_or, set};
ghost use Rattle.definition.specs.Limit.{max_rows};
ghost use Rattle.definition.specs.RowKind.{typedef_kind};
ghost use Rattle.definition.specs.Row.{kind_of, target_of, flags_of, row_name, span_of, extent_of};
ghost use Rattle.definition.specs.Table.{row_at, push_row, push_declaration};
ghost use Rattle.definition.specs.Types.{width_number};
ghost use Rattle.definition.specs.Lent.{row_words, member_words, member_wides, value_words, parameter_words, declaration_words};
ghost use Rattle.definition.specs.Region.{words_length, wides_length, names_at};
ghost use Rattle.encoding.specs.Kinds.{kind_number, kind_numbers};
ghost use Rattle.lemmas.specs.Options.{option};
ghost use Rattle.table.specs.Held.{half_of, indexed, bound_for, value_slot, moved_to, member_at, value_at, parameter_at, declaration_at, Held, Room};
ghost use Rattle.table.specs.Marks.{Passes};
ghost use Rattle.table.specs.Reply.{reply, numbers, declaration, Does, DoesAs, ChangesAs, WordIs, WideIs, SignedIs, DeclarationIs, Peek, Entry, OneMore, FirstSet};
ghost use Rattle.table.specs.Widths.{Storable, WidthIs};
ghost use Rattle.table.specs.Noting.{Sooner, Lowered, NotesRow, NotesTop, first_named, NoneBefore};
ghost use Rattle.table.specs.Store.{member_pushed, value_pushed, parameter_pushed, stored, RowPut, row_set, member_row_set, member_place_set, value_row_set, parameter_row_set, ChangesWords, ChangesWides};

use encoding::refusals::{Reason, Refusal};
use encoding::regions::{
    DECLARATION_COLUMNS, DECLARATIONS_AT, MEMBER_COLUMNS, MEMBER_WIDE_COLUMNS, MEMBER_WIDES_AT,
    MEMBERS_AT, NAMES_AT, PARAMETER_COLUMNS, PARAMETERS_AT, ROW_COLUMNS, VALUE_COLUMNS, VALUES_AT,
};
use encoding::row_kinds::TYPEDEF_KIND;
use encoding::storage::Storage;
use encoding::token_kinds::TokenKind;
use model::Model;

// The index, in the place of the names: a number for the values of a name and one for its rows.
const INDEX_AT: usize = NAMES_AT;

const ROW_INDEX_AT: usize = NAMES_AT + 1;

// Names that have numbers of their own in the index; the last three entries of the names' region hold the marks.
const INDEXED: u64 = HALVES - 3;

const HALVES: u64 = Model::MAX_NAMES as u64;

// A row's number in the index is the bound for type names and, times this, the one for tags.
const TAG_BOUND: u32 = 65536;

// After the index: the number of the last entry of each region, and where the index is blank from.
pub const LAST_ROW: usize = NAMES_AT + 2 * (INDEXED as usize);

pub const LAST_MEMBER: usize = LAST_ROW + 1;

pub const LAST_VALUE: usize = LAST_ROW + 2;

pub const LAST_PARAMETER: usize = LAST_ROW + 3;

pub const LAST_DECLARATION: usize = LAST_ROW + 4;

pub const TOP: usize = LAST_ROW + 5;

// Where the reader stands, and how many of each there are.
#[derive(Clone, Copy, PartialEq, Eq)]
pub struct Cursor {
    pub at: usize,
    pub rows: usize,
    pub members: usize,
    pub values: usize,
    pub parameters: usize,
    pub declarations: usize,
}

// The numbers of a row.
#[derive(Clone, Copy, PartialEq, Eq)]
pub struct Numbers {
    pub kind: u32,
    pub target: u32,
    pub flags: u32,
    pub name: u32,
    pub first: u32,
    pub count: u32,
    pub extent: u64,
}

impl Numbers {
    // What the rows that have few numbers are made from.
    pub const ZERO: Numbers = Numbers {
        kind: 0,
        target: 0,
        flags: 0,
        name: 0,
        first: 0,
        count: 0,
        extent: 0,
    };
}

// A declaration: its storage, the row of its type, its name (0 for none).
#[derive(Clone, Copy)]
pub struct Declaration {
    pub storage: Storage,
    pub ty: u32,
    pub name: u32,
}

// A value and where to read on, or the refusal of the token that it names.
pub type Answer<T> = Result<(Cursor, T), Refusal>;

impl Cursor {
    // The same table, read from another token on.
    pub fn moved(self, at: usize) -> Cursor
        ensures { result ≡ moved_to self at }
    {
        Cursor { at, ..self }
    }

    // Past a mark, which must stand here.
    pub fn past(self, kinds: &[TokenKind], mark: TokenKind) -> Result<Cursor, Refusal>
        requires { 0 < kind_number mark }
        ensures { Passes (kind_numbers kinds.now) (kind_number mark) self result }
    {
        let at = self.at;
        if kind_at(kinds, at) != mark {
            return Err(Refusal {
                reason: Reason::MissingMark,
                at,
            });
        }
        Ok(self.moved(at + 1))
    }
}

// ---- reads

// A number of a slice: zero past the end.
fn at<T: Copy>(xs: &[T], i: usize, zero: T) -> T
    ensures { result ≡ get_or xs.now i zero }
{
    xs.get(i).copied().unwrap_or(zero)
}

// The kind of a token: the end's past the last.
pub fn kind_at(kinds: &[TokenKind], at: usize) -> TokenKind
    ensures { Peek (kind_numbers kinds.now) at (kind_number result) }
{
    kinds.get(at).copied().unwrap_or(TokenKind::End)
}

// A number of w.
pub fn word_at(w: &[u32], at: usize) -> u32
    ensures { Peek w.now at result }
{
    self::at(w, at, 0)
}

// The number of a token.
pub fn number_at(numbers: &[u64], at: usize) -> u64
    ensures { Peek numbers.now at result }
{
    self::at(numbers, at, 0)
}

// Entries in a slice: where the first begins, how many numbers each has, how many there may be.
#[derive(Clone, Copy)]
struct Region {
    start: usize,
    columns: usize,
    limit: usize,
}

const ROWS: Region = Region {
    start: 0,
    columns: ROW_COLUMNS,
    limit: Model::MAX_ROWS,
};

const MEMBERS: Region = Region {
    start: MEMBERS_AT,
    columns: MEMBER_COLUMNS,
    limit: Model::MAX_MEMBERS,
};

const VALUES: Region = Region {
    start: VALUES_AT,
    columns: VALUE_COLUMNS,
    limit: Model::MAX_VALUES,
};

const PARAMETERS: Region = Region {
    start: PARAMETERS_AT,
    columns: PARAMETER_COLUMNS,
    limit: Model::MAX_PARAMETERS,
};

const DECLARATIONS: Region = Region {
    start: DECLARATIONS_AT,
    columns: DECLARATION_COLUMNS,
    limit: Model::MAX_DECLARATIONS,
};

const EXTENTS: Region = Region {
    start: 0,
    columns: 1,
    limit: Model::MAX_ROWS,
};

const PLACES: Region = Region {
    start: MEMBER_WIDES_AT,
    columns: MEMBER_WIDE_COLUMNS,
    limit: Model::MAX_MEMBERS,
};

impl Region {
    // A number of entry i: 0 past the entries that may be.
    fn number<T: Copy>(self, xs: &[T], i: usize, column: usize, zero: T) -> T
        requires { (self.start + self.columns * self.limit ≤ words_length) × (column < self.columns) }
        ensures { Entry self.start self.columns self.limit xs.now i column zero result }
    {
        if self.limit <= i {
            return zero;
        }
        at(xs, self.start + self.columns * i + column, zero)
    }

    // One entry more than there are: refused where there are as many as may be.
    fn one_more(self, count: usize, at: usize) -> Result<(), Refusal>
        ensures { OneMore self.limit count at result }
    {
        if self.limit <= count {
            return Err(Refusal {
                reason: Reason::LimitPassed,
                at,
            });
        }
        Ok(())
    }

    // The numbers of entry i.
    fn put<T: Copy, const N: usize>(self, xs: &mut [T], i: usize, numbers: [T; N])
        requires { self.start + self.columns * i + N ≤ length xs.old }
        ensures { xs.new ≡ stored xs.old (self.start + self.columns * i) numbers }
    {
        let first = self.start + self.columns * i;
        xs[first..first + N].copy_from_slice(&numbers);
    }

    // The first number of entry i, where it is one of those that there are: the row that it carries.
    fn set_first(self, w: &mut [u32], count: usize, i: usize, row: u32)
        requires { (length w.old ≡ words_length) × ((self.start + self.columns * self.limit ≤ words_length) × ((0 < self.columns) × (count ≤ self.limit))) }
        ensures { FirstSet self.start self.columns count i row w.old w.new }
    {
        if i < count {
            w[self.start + self.columns * i] = row;
        }
    }
}

// The columns of rows.
fn row_word(w: &[u32], n: u32, column: usize) -> u32
    requires { column < 6 }
    ensures { WordIs (λ t. get_or (row_words (row_at t n)) column 0) w.now result }
{
    ROWS.number(w, n as usize, column, 0)
}

pub fn row_kind(w: &[u32], n: u32) -> u32
    ensures { WordIs (λ t. kind_of (row_at t n)) w.now result }
{
    row_word(w, n, 0)
}

pub fn row_target(w: &[u32], n: u32) -> u32
    ensures { WordIs (λ t. target_of (row_at t n)) w.now result }
{
    row_word(w, n, 1)
}

pub fn row_flags(w: &[u32], n: u32) -> u32
    ensures { WordIs (λ t. flags_of (row_at t n)) w.now result }
{
    row_word(w, n, 2)
}

pub fn row_name(w: &[u32], n: u32) -> u32
    ensures { WordIs (λ t. row_name (row_at t n)) w.now result }
{
    row_word(w, n, 3)
}

pub fn row_first(w: &[u32], n: u32) -> u32
    ensures { WordIs (λ t. (span_of (row_at t n)).first) w.now result }
{
    row_word(w, n, 4)
}

pub fn row_count(w: &[u32], n: u32) -> u32
    ensures { WordIs (λ t. (span_of (row_at t n)).count) w.now result }
{
    row_word(w, n, 5)
}

pub fn row_extent(d: &[u64], n: u32) -> u64
    ensures { WideIs (λ t. extent_of (row_at t n)) d.now result }
{
    EXTENTS.number(d, n as usize, 0, 0)
}

// The columns of members.
fn member_word(w: &[u32], i: usize, column: usize) -> u32
    requires { column < 4 }
    ensures { WordIs (λ t. get_or (member_words (member_at t i)) column 0) w.now result }
{
    MEMBERS.number(w, i, column, 0)
}

pub fn member_row(w: &[u32], i: usize) -> u32
    ensures { WordIs (λ t. (member_at t i).row) w.now result }
{
    member_word(w, i, 0)
}

pub fn member_type(w: &[u32], i: usize) -> u32
    ensures { WordIs (λ t. (member_at t i).type) w.now result }
{
    member_word(w, i, 1)
}

pub fn member_name(w: &[u32], i: usize) -> u32
    ensures { WordIs (λ t. (member_at t i).name) w.now result }
{
    member_word(w, i, 2)
}

pub fn member_width(w: &[u32], i: usize) -> Option<u32>
    ensures { WidthIs i w.now result }
{
    member_word(w, i, 3).checked_sub(1)
}

// The 64-bit columns of members.
fn member_wide(d: &[u64], i: usize, column: usize) -> u64
    requires { column < 2 }
    ensures { WideIs (λ t. get_or (member_wides (member_at t i)) column 0) d.now result }
{
    PLACES.number(d, i, column, 0)
}

pub fn member_offset(d: &[u64], i: usize) -> u64
    ensures { WideIs (λ t. (member_at t i).offset) d.now result }
{
    member_wide(d, i, 0)
}

pub fn member_first_bit(d: &[u64], i: usize) -> u64
    ensures { WideIs (λ t. (member_at t i).first_bit) d.now result }
{
    member_wide(d, i, 1)
}

// The columns of values.
fn value_word(w: &[u32], i: usize, column: usize) -> u32
    requires { column < 2 }
    ensures { WordIs (λ t. get_or (value_words (value_at t i)) column 0) w.now result }
{
    VALUES.number(w, i, column, 0)
}

pub fn value_row(w: &[u32], i: usize) -> u32
    ensures { WordIs (λ t. (value_at t i).row) w.now result }
{
    value_word(w, i, 0)
}

pub fn value_name(w: &[u32], i: usize) -> u32
    ensures { WordIs (λ t. (value_at t i).name) w.now result }
{
    value_word(w, i, 1)
}

#[tactic(auto, using(crate::proofs::Columns::signed_is))]
pub fn value_at(v: &[i64], i: usize) -> i64
    ensures { SignedIs (λ t. (value_at t i).value) v.now result }
{
    at(v, i, 0)
}

// The columns of parameters.
fn parameter_word(w: &[u32], i: usize, column: usize) -> u32
    requires { column < 3 }
    ensures { WordIs (λ t. get_or (parameter_words (parameter_at t i)) column 0) w.now result }
{
    PARAMETERS.number(w, i, column, 0)
}

pub fn parameter_row(w: &[u32], i: usize) -> u32
    ensures { WordIs (λ t. (parameter_at t i).row) w.now result }
{
    parameter_word(w, i, 0)
}

pub fn parameter_type(w: &[u32], i: usize) -> u32
    ensures { WordIs (λ t. (parameter_at t i).type) w.now result }
{
    parameter_word(w, i, 1)
}

pub fn parameter_name(w: &[u32], i: usize) -> u32
    ensures { WordIs (λ t. (parameter_at t i).name) w.now result }
{
    parameter_word(w, i, 2)
}

// The columns of declarations.
fn declaration_word(w: &[u32], i: usize, column: usize) -> u32
    requires { column < 3 }
    ensures { WordIs (λ t. get_or (declaration_words (declaration_at t i)) column 0) w.now result }
{
    DECLARATIONS.number(w, i, column, 0)
}

pub fn declaration_at(w: &[u32], i: usize) -> Declaration
    ensures { DeclarationIs (λ t. declaration_at t i) w.now result }
{
    let number = declaration_word(w, i, 0);
    let ty = declaration_word(w, i, 1);
    let name = declaration_word(w, i, 2);
    Declaration {
        storage: Storage::from(number),
        ty,
        name,
    }
}

// ---- the index

// Where a name's two numbers stand in the index.
pub fn name_slot(name: u64) -> usize
    ensures { (result ≡ 2 * half_of name) × (half_of name < indexed) }
{
    2 * ((name / 2 % HALVES % INDEXED) as usize)
}

// The index is blank after the numbers of a name, if it was before.
fn note_top(w: &mut [u32], name: u32)
    requires { length w.old ≡ words_length }
    ensures { NotesTop name w.old w.new }
{
    let end = (name_slot(u64::from(name)) + 2) as u32;
    if w[TOP] < end {
        w[TOP] = end;
    }
}

// A bound that is not later than it was, nor than a row: 0 is none.
fn sooner(bound: u32, row: u32) -> u32
    ensures { Sooner bound row result }
{
    if bound == 0 { row } else { bound.min(row) }
}

// A noted number with a row of a kind, counted from 1.
fn lowered(noted: u32, kind: u32, row: u32) -> u32
    requires { (0 < row) × (row ≤ max_rows) }
    ensures { Lowered (eqb kind typedef_kind) row noted result }
{
    let names = noted % TAG_BOUND;
    let tags = noted / TAG_BOUND;
    if kind == TYPEDEF_KIND {
        tags * TAG_BOUND + sooner(names, row)
    } else {
        sooner(tags, row) * TAG_BOUND + names
    }
}

// Row n has the kind and the name: no search for them begins after n.
fn note_row(w: &mut [u32], kind: u32, name: u32, n: usize)
    requires { (length w.old ≡ words_length) × (n < max_rows) }
    ensures { NotesRow kind name n w.old w.new }
{
    if name == 0 {
        return;
    }
    let at = ROW_INDEX_AT + name_slot(u64::from(name));
    w[at] = lowered(w[at], kind, (n + 1) as u32);
}

// Value n has the name: every search for it begins at n or after it.
fn note_value(w: &mut [u32], name: u32, n: usize)
    requires { (length w.old ≡ words_length) × (n < 4096) }
    ensures { w.new ≡ set w.old (names_at + value_slot name) (n + 1) }
{
    w[INDEX_AT + name_slot(u64::from(name))] = (n + 1) as u32;
}

// The bound for rows of a kind in a noted number.
fn bound_for(noted: u32, kind: u32) -> u32
    ensures { result ≡ bound_for kind noted }
{
    if kind == TYPEDEF_KIND {
        noted % TAG_BOUND
    } else {
        noted / TAG_BOUND
    }
}

// Before which value a search for the last one of a name begins: no value from there on has the name.
pub fn value_bound(w: &[u32], name: u64) -> u32
    ensures { result ≡ get_or w.now (names_at + value_slot name) 0 }
{
    at(w, INDEX_AT + name_slot(name), 0)
}

// Where a search for a row of a kind and a name begins, if there may be one: no row before has both.
pub fn first_named(w: &[u32], kind: u32, name: u32) -> Option<usize>
    requires { length w.now ≡ words_length }
    ensures at { option result ≡ first_named kind name w.now }
    ensures none_before { NoneBefore kind name w.now result }
{
    if name == 0 {
        return Some(0);
    }
    let bound = bound_for(w[ROW_INDEX_AT + name_slot(u64::from(name))], kind);
    (bound as usize).checked_sub(1)
}

// ---- stores

// Row n, which the index notes.
fn put_row(w: &mut [u32], d: &mut [u64], n: usize, row: Numbers)
    requires { (length w.old ≡ words_length) × ((length d.old ≡ wides_length) × (n < max_rows)) }
    ensures { RowPut n row w.old d.old w.new d.new }
{
    note_top(w, row.name);
    note_row(w, row.kind, row.name, n);
    ROWS.put(
        w,
        n,
        [
            row.kind, row.target, row.flags, row.name, row.first, row.count,
        ],
    );
    EXTENTS.put(d, n, [row.extent]);
}

// The next row: refused where there are as many as may be.
pub fn push_row(w: &mut [u32], d: &mut [u64], v: &mut [i64], c: Cursor, row: Numbers) -> Answer<u32>
    requires { Held c w.old d.old v.old }
    ensures { DoesAs numbers row push_row c w.old d.old v.old (reply result) w.new d.new v.new }
{
    let n = c.rows;
    ROWS.one_more(n, c.at)?;
    put_row(w, d, n, row);
    w[LAST_ROW] = n as u32;
    Ok((Cursor { rows: n + 1, ..c }, n as u32))
}

// The number of a width: 0 for a plain member, else 1 more than the bit-field's.
fn width_number(width: Option<u32>) -> u32
    ensures { Storable width → result ≡ width_number (option width) }
{
    match width {
        None => 0,
        Some(bits) => bits.saturating_add(1),
    }
}

// The next member; its first bit is known when its body is laid out.
pub fn push_member(
    w: &mut [u32],
    d: &mut [u64],
    v: &mut [i64],
    c: Cursor,
    row: u32,
    ty: u32,
    name: u32,
    width: Option<u32>,
    offset: u64,
) -> Answer<u32>
    requires { Held c w.old d.old v.old }
    ensures { Storable width → Does (member_pushed row ty name offset (option width)) c w.old d.old v.old (reply result) w.new d.new v.new }
{
    let n = c.members;
    MEMBERS.one_more(n, c.at)?;
    MEMBERS.put(w, n, [row, ty, name, width_number(width)]);
    PLACES.put(d, n, [offset, 0]);
    w[LAST_MEMBER] = n as u32;
    Ok((
        Cursor {
            members: n + 1,
            ..c
        },
        n as u32,
    ))
}

// The next value.
pub fn push_value(
    w: &mut [u32],
    d: &mut [u64],
    v: &mut [i64],
    c: Cursor,
    row: u32,
    name: u32,
    value: i64,
) -> Answer<u32>
    requires { Held c w.old d.old v.old }
    ensures { Does (value_pushed row name value) c w.old d.old v.old (reply result) w.new d.new v.new }
{
    let n = c.values;
    VALUES.one_more(n, c.at)?;
    note_top(w, name);
    note_value(w, name, n);
    VALUES.put(w, n, [row, name]);
    v[n] = value;
    w[LAST_VALUE] = n as u32;
    Ok((Cursor { values: n + 1, ..c }, n as u32))
}

// The next parameter.
pub fn push_parameter(
    w: &mut [u32],
    d: &mut [u64],
    v: &mut [i64],
    c: Cursor,
    row: u32,
    ty: u32,
    name: u32,
) -> Answer<u32>
    requires { Held c w.old d.old v.old }
    ensures { Does (parameter_pushed row ty name) c w.old d.old v.old (reply result) w.new d.new v.new }
{
    let n = c.parameters;
    PARAMETERS.one_more(n, c.at)?;
    PARAMETERS.put(w, n, [row, ty, name]);
    w[LAST_PARAMETER] = n as u32;
    Ok((
        Cursor {
            parameters: n + 1,
            ..c
        },
        n as u32,
    ))
}

// The next declaration.
pub fn push_declared(
    w: &mut [u32],
    d: &mut [u64],
    v: &mut [i64],
    c: Cursor,
    x: Declaration,
) -> Answer<u32>
    requires { Held c w.old d.old v.old }
    ensures { Does (push_declaration (declaration x)) c w.old d.old v.old (reply result) w.new d.new v.new }
{
    let n = c.declarations;
    DECLARATIONS.one_more(n, c.at)?;
    DECLARATIONS.put(w, n, [u32::from(x.storage), x.ty, x.name]);
    w[LAST_DECLARATION] = n as u32;
    Ok((
        Cursor {
            declarations: n + 1,
            ..c
        },
        n as u32,
    ))
}

// A row put in the place of row n, where there is one.
pub fn set_row(w: &mut [u32], d: &mut [u64], v: &mut [i64], c: Cursor, n: u32, row: Numbers)
    requires { Held c w.old d.old v.old }
    ensures { ChangesAs numbers row (row_set n) c w.old d.old v.old w.new d.new v.new }
{
    let i = n as usize;
    if i < c.rows {
        put_row(w, d, i, row);
    }
}

// The row that member i carries.
pub fn set_member_row(w: &mut [u32], c: Cursor, i: usize, row: u32)
    requires { (length w.old ≡ words_length) × Room c }
    ensures { ChangesWords (member_row_set i row) c w.old w.new }
{
    MEMBERS.set_first(w, c.members, i, row)
}

// The row that value i carries.
pub fn set_value_row(w: &mut [u32], c: Cursor, i: usize, row: u32)
    requires { (length w.old ≡ words_length) × Room c }
    ensures { ChangesWords (value_row_set i row) c w.old w.new }
{
    VALUES.set_first(w, c.values, i, row)
}

// The row that parameter i carries.
pub fn set_parameter_row(w: &mut [u32], c: Cursor, i: usize, row: u32)
    requires { (length w.old ≡ words_length) × Room c }
    ensures { ChangesWords (parameter_row_set i row) c w.old w.new }
{
    PARAMETERS.set_first(w, c.parameters, i, row)
}

// The place of member i: its offset in bytes, and its first bit.
pub fn set_member_place(d: &mut [u64], c: Cursor, i: usize, offset: u64, bit: u64)
    requires { (length d.old ≡ wides_length) × Room c }
    ensures { ChangesWides (member_place_set i offset bit) c d.old d.new }
{
    if i < c.members {
        PLACES.put(d, i, [offset, bit]);
    }
}
