// A text cut into tokens.
ghost use Rattle.encoding.specs.Kinds.{kind_numbers};
ghost use Rattle.definition_laws.specs.Columns.{Columns};

use naming::Tokens;

// Its tokens, their places in the text, and the text's length.
#[derive(Clone, Copy)]
pub struct Lexed<'a> {
    pub tokens: Tokens<'a>,
    pub places: &'a [u32],
    pub end: usize,
    ghost columns: { Columns (kind_numbers tokens.kinds.now) places.now tokens.numbers.now },
}
