#![tactic(auto)]
// Names among the tokens: their spellings, and trees of them, one for each hash of a spelling.
ghost use Rattle.std.specs.Prelude.{◌≡◌, true, ◌+◌, ◌-◌, ◌≤◌, ◌<◌, length, take};
ghost use Rattle.encoding.specs.Kinds.{kind_number, kind_numbers};
ghost use Rattle.definition.specs.Kind.{is_name};
ghost use Rattle.definition.specs.Text.{same};
ghost use Rattle.definition.specs.Scan.{from};
ghost use Rattle.spellings.specs.Names.{spelled_by, Inside, is_name_of};
ghost use Rattle.spellings.specs.Chain.{hashed, HeadCount, slot, bit_of, Walks, Walked};

use encoding::names::Name;
use encoding::token_kinds::TokenKind;
use words::classes::is_name;

const BYTE_BITS: usize = 8;

pub const HEADS: usize = 4096;

// For a small text, as all heads are cleared before it is read.
pub const FEW_HEADS: usize = 64;

// Of each token.
pub const LINKS: usize = 2;

// The name that a spelling has, or the link that its first token is to be put at.
#[derive(Clone, Copy)]
pub enum Spot {
    Known(u64),
    Free(usize),
}

// A name has a spelling.
#[tactic(auto, using(crate::proofs::Found::same_bytes))]
fn spelled(text: &[u8], n: u64, word: &[u8]) -> bool
    requires { Inside text.now n }
    ensures { result ≡ same word.now (spelled_by text.now n) }
{
    let name = Name::numbered(n);
    word == &text[name.offset..name.offset + name.length]
}

// A token of a kind and a number is the name of that spelling.
#[tactic(auto, unfolding(crate::specs::Names::is_name_of))]
fn is_name_of(text: &[u8], kind: TokenKind, n: u64, word: &[u8]) -> bool
    requires { is_name (kind_number kind) ≡ true → Inside text.now n }
    ensures { result ≡ is_name_of text.now word.now (kind_number kind) n }
{
    is_name(kind) && spelled(text, n, word)
}

// A hash of a spelling.
fn hash(word: &[u8]) -> usize
    ensures value { result ≡ hashed word.now }
    ensures upper_bound { result < 4096 }
{
    let mut h = 0;
    for b in word {
        h = (33 * h + usize::from(*b)) % HEADS;
    }
    h
}

// The head of a spelling among so many. A remainder by a number that varies is slow.
pub fn slot(word: &[u8], heads: usize) -> usize
    requires { HeadCount heads }
    ensures value { result ≡ slot word.now heads }
    ensures upper_bound { result < heads }
{
    let h = hash(word);
    if heads == HEADS {
        return h;
    }
    h % FEW_HEADS
}

// The bit of a spelling that a step at a depth goes by, from its last byte on, 0 past its first. Two spellings differ in one, so no walk is longer than the bits of its spelling.
// Many names begin alike, and a comparison takes as long as they do: from the end they part early.
#[tactic(auto, unfolding(crate::specs::Chain::bit_of))]
fn side(word: &[u8], depth: usize) -> usize
    ensures value { result ≡ bit_of word.now depth }
    ensures upper_bound { result < 2 }
{
    let back = depth / BYTE_BITS + 1;
    match word.len().checked_sub(back) {
        Some(i) => usize::from((word[i] >> (depth % BYTE_BITS)) % 2),
        None => 0,
    }
}

// Looks for a spelling in the tree of a head.
pub fn walk(
    text: &[u8],
    kinds: &[TokenKind],
    numbers: &[u64],
    links: &[u16],
    count: usize,
    heads: usize,
    head: usize,
    word: &[u8],
) -> Spot
    requires { Walks text.now (kind_numbers kinds.now) numbers.now links.now count heads head }
    ensures { Walked text.now word.now (kind_numbers kinds.now) numbers.now links.now count heads head result }
{
    let mut spot = head;
    let mut depth = 0;
    while let Some(j) = usize::from(links[spot]).checked_sub(1) {
        let name = numbers[j];
        if is_name_of(text, kinds[j], name, word) {
            return Spot::Known(name);
        }
        spot = heads + LINKS * j + side(word, depth);
        depth += 1;
    }
    Spot::Free(spot)
}
