#![tactic(auto)]
// The two entries on texts: `translation_unit` and `declaration`, over slices that the caller lends.
ghost use Rattle.std.specs.Prelude.{◌≡◌, ◌+◌, ◌*◌, ◌≤◌, length, Err};
ghost use Rattle.definition.specs.Limit.{max_text};
ghost use Rattle.definition.specs.Token.{here};
ghost use Rattle.definition.specs.Reader.{in_text};
ghost use Rattle.definition.specs.Entry.{parse, read_with, wholeHeader, singleDeclaration};
ghost use Rattle.definition.specs.Table.{new_table};
ghost use Rattle.model.specs.Meaning.{model};
ghost use Rattle.table.specs.Held.{Encodes};
ghost use Rattle.definition_laws.specs.Columns.{Columns};
ghost use Rattle.encoding.specs.Kinds.{kind_numbers};
ghost use Rattle.entry_points.specs.Lexed.{lexed_of};
ghost use Rattle.name_table.specs.Striking.{PlacesBelow};
ghost use Rattle.spellings.specs.Chain.{HeadCount};
ghost use Rattle.clearing.specs.Slices.{lent};
ghost use Rattle.definition.specs.Lent.{long_enough};
ghost use Rattle.entry_points.specs.Walking.{Walkable};
ghost use Rattle.entry_points.specs.Answers.{entry_of, lexed, first_cursor, counts_from, Parses, Read, Reads, Scratch, FitsIf, Cleared, as_long, told, rejected_at, out, answered, Answers};
ghost use Rattle.encoding.specs.Refusals.{number_of, answer};

pub mod lexed;

use crate::lexed::Lexed;
use clearing::clear;
use declarations::{declarations, lone_declaration};
use encoding::refusals::{Reason, Refusal};
use encoding::regions::{SIGNEDS, WIDES, WORDS};
use encoding::token_kinds::TokenKind;
use erasing::clear_left;
use lexer::{MAX_LINKS, lex};
use model::Model;
use name_table::fill_names;
use naming::Tokens;
use parser::parser::Parser;
use scan::line_column;
use spellings::{FEW_HEADS, HEADS, LINKS};
use table::{Cursor, word_at};

// A text is read in scratch of the first of these lengths that is not less than its own: all of it has to be cleared.
const TINY_TEXT: usize = 64;

const SMALL_TEXT: usize = 320;

const MIDDLE_TEXT: usize = 1536;

const LARGE_TEXT: usize = 7168;

const TOO_LONG: usize = Model::MAX_TEXT + 1;

const TINY_LINKS: usize = FEW_HEADS + LINKS * TINY_TEXT;

const SMALL_LINKS: usize = FEW_HEADS + LINKS * SMALL_TEXT;

const MIDDLE_LINKS: usize = FEW_HEADS + LINKS * MIDDLE_TEXT;

const LARGE_LINKS: usize = HEADS + LINKS * LARGE_TEXT;

// How many of each an accepted text has.
#[derive(Clone, Copy)]
pub struct Counts {
    pub rows: usize,
    pub members: usize,
    pub values: usize,
    pub parameters: usize,
    pub declarations: usize,
    pub names: usize,
}

// A refusal, with the line and the column of its offset.
#[derive(Clone, Copy, PartialEq, Eq)]
pub struct Rejection {
    pub reason: Reason,
    pub offset: usize,
    pub line: usize,
    pub column: usize,
}

// What the caller is told.
pub type Outcome = Result<Counts, Rejection>;

#[derive(Clone, Copy)]
pub enum Entry {
    WholeHeader,
    SingleDeclaration,
}

// ---- tokens

fn first_cursor() -> Cursor
    ensures { result ≡ first_cursor }
{
    Cursor {
        at: 0,
        rows: 1,
        members: 0,
        values: 0,
        parameters: 0,
        declarations: 0,
    }
}

impl Lexed<'_> {
    // The offset of a token, the text's end past the last.
    fn offset_of(&self, at: usize) -> usize
        ensures { result ≡ here (lexed_of self.now) at }
    {
        if self.tokens.kind(at) == TokenKind::End {
            return self.end;
        }
        word_at(self.places, at) as usize
    }

    // What was read of the tokens; a refusal, at its token's offset in the text.
    #[tactic(auto, unfolding(definition::specs::Reader::in_text))]
    fn in_text(&self, read: Result<Cursor, Refusal>) -> Result<Cursor, Refusal>
        ensures { answer result ≡ in_text (lexed_of self.now) (answer read) }
    {
        match read {
            Ok(c) => Ok(c),
            Err(e) => Err(Refusal {
                reason: e.reason,
                at: self.offset_of(e.at),
            }),
        }
    }
}

// What an entry reads of tokens; a refusal names an offset. One declaration may say one name at most.
fn parse_tokens(
    entry: Entry,
    lexed: &Lexed<'_>,
    m: Model,
    w: &mut [u32],
    d: &mut [u64],
    v: &mut [i64],
) -> Result<Cursor, Refusal>
    requires { Encodes new_table first_cursor w.old d.old v.old }
    ensures { Parses (parse (entry_of entry) (lexed_of lexed.now) (model m)) (answer result) w.new d.new v.new }
{
    let parser = Parser {
        tokens: lexed.tokens,
        model: m,
    };
    let read = match entry {
        Entry::WholeHeader => declarations(&parser, w, d, v, first_cursor()),
        Entry::SingleDeclaration => lone_declaration(&parser, w, d, v, first_cursor()),
    };
    let c = lexed.in_text(read)?;
    match entry {
        Entry::SingleDeclaration if 1 < c.declarations => Err(Refusal {
            reason: Reason::NotOneDeclaration,
            at: 0,
        }),
        _ => Ok(c),
    }
}

fn counted(c: Cursor, names: usize) -> Counts
    ensures { result ≡ counts_from c names }
{
    Counts {
        rows: c.rows,
        members: c.members,
        values: c.values,
        parameters: c.parameters,
        declarations: c.declarations,
        names,
    }
}

// ---- texts

// The tokens of a text read into a new table, with its names. Where they are refused, what was read is taken out again. The list of names is scratch.
fn read_tokens<'x>(
    entry: Entry,
    kinds: &'x [TokenKind],
    places: &'x [u32],
    numbers: &'x [u64],
    listed: &mut [u16],
    end: usize,
    m: Model,
    w: &mut [u32],
    d: &mut [u64],
    v: &mut [i64],
) -> Result<Counts, Refusal>
    requires columns { Columns (kind_numbers kinds.now) places.now numbers.now }
    requires places_below { PlacesBelow places.now (length listed.old) }
    requires encodes { Encodes new_table first_cursor w.old d.old v.old }
    ensures { Reads (entry_of entry) (lexed (kind_numbers kinds.now) places.now numbers.now end) (model m) w.old d.old v.old (answer result) w.new d.new v.new }
{
    let lexed = Lexed {
        tokens: Tokens { kinds, numbers },
        places,
        end,
    };
    match parse_tokens(entry, &lexed, m, w, d, v) {
        Ok(c) => {
            let names = fill_names(kinds, places, numbers, listed, w, c);
            Ok(counted(c, names))
        }
        Err(e) => {
            clear_left(w, d, v);
            Err(e)
        }
    }
}

// A text cut in cleared columns, and read into a new table. The links are no more needed then, and their place serves for the list of names.
fn read_columns(
    entry: Entry,
    text: &[u8],
    kinds: &mut [TokenKind],
    places: &mut [u32],
    numbers: &mut [u64],
    links: &mut [u16],
    heads: usize,
    m: Model,
    w: &mut [u32],
    d: &mut [u64],
    v: &mut [i64],
) -> Result<Counts, Refusal>
    requires scratch { Scratch text.now (kind_numbers kinds.old) places.old numbers.old links.old heads }
    requires encodes { Encodes new_table first_cursor w.old d.old v.old }
    ensures { Read (read_with (model m) (entry_of entry) text.now) w.old d.old v.old (answer result) w.new d.new v.new }
{
    let count = lex(text, kinds, places, numbers, links, heads)?;
    read_tokens(
        entry,
        &kinds[..count],
        &places[..count],
        &numbers[..count],
        links,
        text.len(),
        m,
        w,
        d,
        v,
    )
}

// In scratch of one length, with the links for that many heads. Not inlined: else the scratch of every length would lie in one frame, and each call would touch its pages.
#[inline(never)]
fn read_in<const LENGTH: usize, const LINKED: usize>(
    entry: Entry,
    text: &[u8],
    heads: usize,
    m: Model,
    w: &mut [u32],
    d: &mut [u64],
    v: &mut [i64],
) -> Result<Counts, Refusal>
    requires fits_if { FitsIf (length text.now) LENGTH }
    requires short { LENGTH ≤ max_text }
    requires head_count { HeadCount heads }
    requires linked { LINKED ≡ heads + 2 * LENGTH }
    requires encodes { Encodes new_table first_cursor w.old d.old v.old }
    ensures { Read (read_with (model m) (entry_of entry) text.now) w.old d.old v.old (answer result) w.new d.new v.new }
{
    // Not `End` itself: the compiler would leave its second half out, and fill the column entry by entry.
    let end = TokenKind::from(0);
    let mut kinds = [end; LENGTH];
    let mut places = [0u32; LENGTH];
    let mut numbers = [0u64; LENGTH];
    let mut links = [0u16; LINKED];
    read_columns(
        entry,
        text,
        &mut kinds,
        &mut places,
        &mut numbers,
        &mut links,
        heads,
        m,
        w,
        d,
        v,
    )
}

// In the least scratch that does. A text that is too long is refused before it is cut, so any does for it.
fn read_text(
    entry: Entry,
    text: &[u8],
    m: Model,
    w: &mut [u32],
    d: &mut [u64],
    v: &mut [i64],
) -> Result<Counts, Refusal>
    requires { Encodes new_table first_cursor w.old d.old v.old }
    ensures { Read (read_with (model m) (entry_of entry) text.now) w.old d.old v.old (answer result) w.new d.new v.new }
{
    match text.len() {
        ..=TINY_TEXT | TOO_LONG.. => {
            read_in::<TINY_TEXT, TINY_LINKS>(entry, text, FEW_HEADS, m, w, d, v)
        }
        ..=SMALL_TEXT => read_in::<SMALL_TEXT, SMALL_LINKS>(entry, text, FEW_HEADS, m, w, d, v),
        ..=MIDDLE_TEXT => read_in::<MIDDLE_TEXT, MIDDLE_LINKS>(entry, text, FEW_HEADS, m, w, d, v),
        ..=LARGE_TEXT => read_in::<LARGE_TEXT, LARGE_LINKS>(entry, text, HEADS, m, w, d, v),
        _ => read_in::<{ Model::MAX_TEXT }, MAX_LINKS>(entry, text, HEADS, m, w, d, v),
    }
}

// ---- the entries

fn reject(text: &[u8], e: Refusal) -> Rejection
    ensures { told (Err result) ≡ rejected_at text.now (number_of e.reason) e.at }
{
    let spot = line_column(text, e.at);
    Rejection {
        reason: e.reason,
        offset: e.at,
        line: spot.line,
        column: spot.column,
    }
}

// As long as the limits ask.
fn long_enough(words: usize, wides: usize, signeds: usize) -> bool
    ensures { result ≡ as_long words wides signeds }
{
    WORDS <= words && WIDES <= wides && SIGNEDS <= signeds
}

// What is read of a text by an entry, in slices that are zero throughout, of any length: the table stands in their front. A caller that keeps them so between calls need not pay for
// clearing 422 KB. An unknown number of a model and slices that are too short are refused first.
pub fn outcome_in_zeros(
    entry: Entry,
    text: &[u8],
    model: u32,
    w: &mut [u32],
    d: &mut [u64],
    v: &mut [i64],
) -> Outcome
    requires { Cleared w.old d.old v.old }
    ensures answers { Answers model (entry_of entry) text.now w.old d.old v.old (told result) w.new d.new v.new }
    ensures v_after { out (told result) (lent w.new d.new v.new) ≡ answered (lent w.old d.old v.old) model (entry_of entry) text.now }
    ensures walkable { Walkable model (long_enough (lent w.old d.old v.old)) (entry_of entry) text.now }
{
    let bad_call = Refusal {
        reason: Reason::BadCall,
        at: 0,
    };
    let Some(m) = Model::numbered(model) else {
        return Err(reject(text, bad_call));
    };
    if !long_enough(w.len(), d.len(), v.len()) {
        return Err(reject(text, bad_call));
    }
    let r = read_text(
        entry,
        text,
        m,
        &mut w[..WORDS],
        &mut d[..WIDES],
        &mut v[..SIGNEDS],
    );
    r.map_err(|e| reject(text, e))
}

// The same in slices that hold anything.
pub fn outcome(
    entry: Entry,
    text: &[u8],
    model: u32,
    w: &mut [u32],
    d: &mut [u64],
    v: &mut [i64],
) -> Outcome
    ensures v_after { out (told result) (lent w.new d.new v.new) ≡ answered (lent w.old d.old v.old) model (entry_of entry) text.now }
    ensures walkable { Walkable model (long_enough (lent w.old d.old v.old)) (entry_of entry) text.now }
{
    clear(w, d, v);
    outcome_in_zeros(entry, text, model, w, d, v)
}

// A whole header.
pub fn translation_unit(
    text: &[u8],
    model: u32,
    w: &mut [u32],
    d: &mut [u64],
    v: &mut [i64],
) -> Outcome
    ensures v_after { out (told result) (lent w.new d.new v.new) ≡ answered (lent w.old d.old v.old) model wholeHeader text.now }
    ensures walkable { Walkable model (long_enough (lent w.old d.old v.old)) wholeHeader text.now }
{
    outcome(Entry::WholeHeader, text, model, w, d, v)
}

// One declaration.
pub fn declaration(text: &[u8], model: u32, w: &mut [u32], d: &mut [u64], v: &mut [i64]) -> Outcome
    ensures v_after { out (told result) (lent w.new d.new v.new) ≡ answered (lent w.old d.old v.old) model singleDeclaration text.now }
    ensures walkable { Walkable model (long_enough (lent w.old d.old v.old)) singleDeclaration text.now }
{
    outcome(Entry::SingleDeclaration, text, model, w, d, v)
}
