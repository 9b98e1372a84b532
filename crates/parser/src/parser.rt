// What a text is parsed from.
ghost use Rattle.std.specs.Prelude.{◌≤◌, length};
ghost use Rattle.definition.specs.Limit.{max_text};
ghost use Rattle.encoding.specs.Kinds.{kind_numbers};

use model::Model;
use naming::Tokens;

// Its tokens, no more than a text has bytes, and the data model.
#[derive(Clone, Copy)]
pub struct Parser<'a> {
    pub tokens: Tokens<'a>,
    pub model: Model,
    ghost few: { length (kind_numbers tokens.kinds.now) ≤ max_text },
}
