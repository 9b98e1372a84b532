#![tactic(auto)]
// Tokens as the lexer gives them, and the name that a token is, as the tables hold it.
ghost use Rattle.std.specs.Prelude.{◌≡◌, true, ◌<◌, ◌^◌, get_or};
ghost use Rattle.definition.specs.Kind.{is_name};
ghost use Rattle.encoding.specs.Kinds.{kind_number, kind_numbers};
ghost use Rattle.naming.specs.Names.{NamesFit};
ghost use Rattle.table.specs.Reply.{Peek};

use encoding::token_kinds::TokenKind;
use table::{kind_at, number_at};

// The columns of tokens whose names fit in a column of the tables.
#[derive(Clone, Copy)]
pub struct Tokens<'a> {
    pub kinds: &'a [TokenKind],
    pub numbers: &'a [u64],
    ghost names_fit: { NamesFit (kind_numbers kinds.now) numbers.now },
}

impl Tokens<'_> {
    // The kind of a token: the end's past the last.
    pub fn kind(&self, at: usize) -> TokenKind
        ensures { Peek (kind_numbers self.now.kinds.now) at (kind_number result) }
    {
        kind_at(self.kinds, at)
    }

    // The name that a word is.
    pub fn name(&self, at: usize) -> u32
        requires { is_name (get_or (kind_numbers self.now.kinds.now) at 0) ≡ true }
        ensures { Peek self.now.numbers.now at result }
    {
        name_at(self.numbers, at)
    }
}

// The number of a word. Names.antt says why it fits.
pub fn name_at(numbers: &[u64], at: usize) -> u32
    requires { get_or numbers.now at 0 < 2 ^ 32 }
    ensures { Peek numbers.now at result }
{
    let name = number_at(numbers, at);
    name as u32
}
