#![tactic(auto)]
// The tokens of a text, in three columns of any length that the caller lends and need not clear.
ghost use Rattle.std.specs.Prelude.{◌≡◌, length, replicate};
ghost use Rattle.definition.specs.Cut.{tokenize};
ghost use Rattle.encoding.specs.Kinds.{kind_numbers};
ghost use Rattle.encoding.specs.Refusals.{answer};
ghost use Rattle.lexer.specs.Columns.{RoomIf, Zero, Lexes};
ghost use Rattle.tokens.specs.Answered.{out, answered};

use encoding::refusals::{Reason, Refusal};
use encoding::token_kinds::TokenKind;
use lexer::{MAX_LINKS, lex};
use model::Model;
use spellings::HEADS;

// The three columns, cleared.
#[tactic(auto, using(encoding::proofs::KindColumns::kinds_filled))]
fn clear(kinds: &mut [TokenKind], places: &mut [u32], numbers: &mut [u64])
    ensures kinds_cleared { kind_numbers kinds.new ≡ replicate (length kinds.old) 0 }
    ensures places_cleared { places.new ≡ replicate (length places.old) 0 }
    ensures numbers_cleared { numbers.new ≡ replicate (length numbers.old) 0 }
{
    // Not `End` itself: the compiler would leave its second half out, and fill the column entry by entry.
    kinds.fill(TokenKind::from(0));
    places.fill(0);
    numbers.fill(0);
}

// With links for any text.
fn lex_any(
    text: &[u8],
    kinds: &mut [TokenKind],
    places: &mut [u32],
    numbers: &mut [u64],
) -> Result<usize, Refusal>
    requires room_if { RoomIf text.now (kind_numbers kinds.old) places.old numbers.old }
    requires zero { Zero (kind_numbers kinds.old) places.old numbers.old }
    ensures { Lexes (tokenize text.now) result (kind_numbers kinds.new) places.new numbers.new }
{
    let mut links = [0u16; MAX_LINKS];
    lex(text, kinds, places, numbers, &mut links, HEADS)
}

// The tokens of a text, in columns of 32,768 entries at least; zeros stand after them, and everywhere on a refusal.
#[tactic(auto, unfolding(crate::specs::Answered::answered, crate::specs::Answered::shown, crate::specs::Answered::short))]
pub fn tokenize(
    text: &[u8],
    kinds: &mut [TokenKind],
    places: &mut [u32],
    numbers: &mut [u64],
) -> Result<usize, Refusal>
    ensures { out (answer result) (kind_numbers kinds.new) places.new numbers.new ≡ answered text.now (length kinds.old) (length places.old) (length numbers.old) }
{
    clear(kinds, places, numbers);
    if kinds.len() < Model::MAX_TEXT
        || places.len() < Model::MAX_TEXT
        || numbers.len() < Model::MAX_TEXT
    {
        return Err(Refusal {
            reason: Reason::BadCall,
            at: 0,
        });
    }
    let lexed = lex_any(text, kinds, places, numbers);
    if lexed.is_err() {
        clear(kinds, places, numbers);
    }
    lexed
}
