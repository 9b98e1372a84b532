#![tactic(auto)]
// A text cut into tokens, in three columns that the caller lends: kinds, places and numbers.
ghost use Rattle.std.specs.Prelude.{◌≡◌, ◌+◌, ◌-◌, ◌*◌, ◌^◌, ◌≤◌, ◌<◌, leb, length, replicate, take};
ghost use Rattle.definition.specs.Scan.{from, before};
ghost use Rattle.definition.specs.Cut.{above_ascii, tokenize};
ghost use Rattle.encoding.specs.Kinds.{kind_number, kind_numbers};
ghost use Rattle.spellings.specs.Chain.{HeadCount, slot, Walked};
ghost use Rattle.lexer.specs.Columns.{Room, RoomIf, Zero, LinksIf, Fills, Lexes, SameLengths};
ghost use Rattle.lexer.specs.Names.{Searches};
ghost use Rattle.lexer.specs.Pushing.{HasRoom, Pushed, PushedName};

use encoding::names::Name;
use encoding::refusals::{Reason, Refusal};
use encoding::token_kinds::TokenKind;
use model::Model;
use next_token::{Piece, next};
use spellings::{HEADS, LINKS, Spot, slot, walk};

// As many links as any text needs.
pub const MAX_LINKS: usize = HEADS + LINKS * Model::MAX_TEXT;

// The offset of the first byte above 127, or the text's length.
fn ascii_end(text: &[u8]) -> usize
    ensures { result ≡ before above_ascii text.now }
{
    text.iter()
        .position(|b| !b.is_ascii())
        .unwrap_or(text.len())
}

// Whether no byte is above 127. A fold has no way out, as `all` has: many bytes are looked at in one step.
fn is_ascii(text: &[u8]) -> bool
    ensures { result ≡ leb (length text.now) (before above_ascii text.now) }
{
    text.iter().fold(true, |ascii, b| ascii & b.is_ascii())
}

// The tokens read so far, in the columns that the caller lends.
#[derive(Drop)]
struct TokenColumns<'a> {
    kinds: &'a mut [TokenKind],
    places: &'a mut [u32],
    numbers: &'a mut [u64],
    count: usize,
}

impl TokenColumns<'_> {
    // A token more.
    #[tactic(auto, using(encoding::proofs::KindColumns::kinds_stored))]
    fn push(&mut self, kind: TokenKind, place: usize, number: u64)
        requires room { HasRoom self.old }
        requires place_in_range { place < 2 ^ 32 }
        ensures { Pushed (kind_number kind) place number self.old self.new }
    {
        self.kinds[self.count] = kind;
        self.places[self.count] = place as u32;
        self.numbers[self.count] = number;
        self.count += 1;
    }

    // Looks for the spelling that stands from an offset to another.
    fn find(&self, text: &[u8], links: &[u16], heads: usize, at: usize, end: usize) -> Spot
        requires { Searches text.now (kind_numbers self.now.kinds.now) self.now.places.now self.now.numbers.now links.now heads self.now.count at end }
        ensures { Walked text.now (take (end - at) (from text.now at)) (kind_numbers self.now.kinds.now) self.now.numbers.now links.now self.now.count heads (slot (take (end - at) (from text.now at)) heads) result }
    {
        let word = &text[at..end];
        let head = slot(word, heads);
        walk(
            text,
            self.kinds,
            self.numbers,
            links,
            self.count,
            heads,
            head,
            word,
        )
    }

    // A name more, which stands from an offset to another: with the number of a token before of its spelling, or with a new one, then in the tree of its hash.
    fn push_name(
        &mut self,
        text: &[u8],
        links: &mut [u16],
        heads: usize,
        kind: TokenKind,
        at: usize,
        end: usize,
    )
        requires { Searches text.now (kind_numbers self.old.kinds.now) self.old.places.now self.old.numbers.now links.old heads self.old.count at end }
        ensures { PushedName text.now heads (kind_number kind) at end self.old links.old self.new links.new }
    {
        match self.find(text, links, heads, at, end) {
            Spot::Known(name) => self.push(kind, at, name),
            Spot::Free(spot) => {
                let name = Name {
                    offset: at,
                    length: end - at,
                };
                self.push(kind, at, name.number());
                links[spot] = self.count as u16;
            }
        }
    }
}

// Reads a text to its end. The links are scratch: nothing is said of them.
fn cut_all(
    text: &[u8],
    kinds: &mut [TokenKind],
    places: &mut [u32],
    numbers: &mut [u64],
    links: &mut [u16],
    heads: usize,
) -> Result<usize, Refusal>
    requires room { Room text.now (kind_numbers kinds.old) places.old numbers.old }
    requires zero { Zero (kind_numbers kinds.old) places.old numbers.old }
    requires head_count { HeadCount heads }
    requires text_in_bounds { heads + 2 * length text.now ≤ length links.old }
    requires links_value { links.old ≡ replicate (length links.old) 0 }
    ensures { Fills text.now result (kind_numbers kinds.new) places.new numbers.new }
{
    let mut tokens = TokenColumns {
        kinds,
        places,
        numbers,
        count: 0,
    };
    let mut at = 0;
    let mut line = true;
    while at < text.len() {
        match next(text, at, line)? {
            Piece::Skip(to, starts) => {
                at = to;
                line = starts;
            }
            Piece::Token(kind, number, to) => {
                tokens.push(kind, at, number);
                at = to;
                line = false;
            }
            Piece::Name(kind, to) => {
                tokens.push_name(text, links, heads, kind, at, to);
                at = to;
                line = false;
            }
        }
    }
    Ok(tokens.count)
}

// The tokens of a text, in columns of zeros with an entry for each byte of it, so that a short text asks for no long ones. A refusal clears nothing.
// What is left in the links, and in the columns of a refused text, is free: no one reads it.
pub fn lex(
    text: &[u8],
    kinds: &mut [TokenKind],
    places: &mut [u32],
    numbers: &mut [u64],
    links: &mut [u16],
    heads: usize,
) -> Result<usize, Refusal>
    requires room_if { RoomIf text.now (kind_numbers kinds.old) places.old numbers.old }
    requires zero { Zero (kind_numbers kinds.old) places.old numbers.old }
    requires links_if { LinksIf text.now links.old heads }
    ensures lexes { Lexes (tokenize text.now) result (kind_numbers kinds.new) places.new numbers.new }
    ensures same_lengths { SameLengths (kind_numbers kinds.old) places.old numbers.old links.old (kind_numbers kinds.new) places.new numbers.new links.new }
{
    if Model::MAX_TEXT < text.len() {
        return Err(Refusal {
            reason: Reason::TextTooLong,
            at: 0,
        });
    }
    if !is_ascii(text) {
        return Err(Refusal {
            reason: Reason::NotAscii,
            at: ascii_end(text),
        });
    }
    cut_all(text, kinds, places, numbers, links, heads)
}
