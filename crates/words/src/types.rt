// The types that words make, and those of the names that every program assumes.
ghost use Rattle.std.specs.Prelude.{◌≡◌, true, false};
ghost use Rattle.definition.specs.Row.{Row, void, int, float, bool};
ghost use Rattle.definition.specs.Specifier.{only_word, double_type, char_type, short_type, int_type, combine, builtin};
ghost use Rattle.encoding.specs.Kinds.{kind_number};
ghost use Rattle.model.specs.Meaning.{model};
ghost use Rattle.words.specs.Meaning.{counts, numbers, known};

use crate::counts::Words;
use encoding::row_kinds::{BOOL_KIND, FLOAT_KIND, INT_KIND, VOID_KIND};
use encoding::token_kinds::TokenKind;
use model::Model;

// The numbers of a row that words make; its other numbers are 0.
#[derive(Clone, Copy)]
pub struct BaseRow {
    pub kind: u32,
    pub flags: u32,
    pub extent: u64,
}

#[tactic(auto, unfolding(crate::specs::Meaning::numbers, definition::specs::Row::kind_of, definition::specs::Row::flags_of, definition::specs::Row::extent_of))]
impl BaseRow {
    pub fn void() -> BaseRow
        ensures { result ≡ numbers void }
    {
        BaseRow {
            kind: VOID_KIND,
            flags: 0,
            extent: 0,
        }
    }

    pub fn bool() -> BaseRow
        ensures { result ≡ numbers bool }
    {
        BaseRow {
            kind: BOOL_KIND,
            flags: 0,
            extent: 0,
        }
    }

    pub fn float(bytes: u64) -> BaseRow
        ensures { result ≡ numbers (float bytes) }
    {
        BaseRow {
            kind: FLOAT_KIND,
            flags: 0,
            extent: bytes,
        }
    }

    pub fn int(bytes: u64, signed: bool) -> BaseRow
        ensures { result ≡ numbers (int bytes signed) }
    {
        BaseRow {
            kind: INT_KIND,
            flags: u32::from(signed),
            extent: bytes,
        }
    }
}

// A word that stands alone.
#[tactic(auto, unfolding(crate::specs::Meaning::known))]
fn only_word(words: Words, row: BaseRow) -> Option<BaseRow>
    ensures { (x : Row) → row ≡ numbers x → result ≡ known (only_word (counts words) x) }
{
    if words.total() == 1 { Some(row) } else { None }
}

// `double` and `long double`.
#[tactic(auto, unfolding(crate::specs::Meaning::known, definition::specs::Specifier::double_type))]
fn double_type(m: Model, words: Words) -> Option<BaseRow>
    ensures { result ≡ known (double_type (model m) (counts words)) }
{
    if 0 < words.short || 0 < words.int || 0 < words.signs() || 1 < words.long {
        return None;
    }
    let bytes = if words.long == 1 {
        m.long_double
    } else {
        m.double
    };
    Some(BaseRow::float(bytes))
}

// `char`, whose sign is the model's unless one is said.
#[tactic(auto, unfolding(crate::specs::Meaning::known, definition::specs::Specifier::char_type))]
fn char_type(m: Model, words: Words) -> Option<BaseRow>
    ensures { result ≡ known (char_type (model m) (counts words)) }
{
    if 0 < words.short || 0 < words.long || 0 < words.int {
        return None;
    }
    let signed = if words.signs() == 0 {
        m.char_signed
    } else {
        words.signedness()
    };
    Some(BaseRow::int(1, signed))
}

#[tactic(auto, unfolding(crate::specs::Meaning::known, definition::specs::Specifier::short_type))]
fn short_type(m: Model, words: Words) -> Option<BaseRow>
    ensures { result ≡ known (short_type (model m) (counts words)) }
{
    if 0 < words.long {
        return None;
    }
    Some(BaseRow::int(m.short, words.signedness()))
}

// `int`, `long` and `long long`, with or without a sign; no word at all is no type.
#[tactic(auto, unfolding(crate::specs::Meaning::known, definition::specs::Specifier::int_type))]
fn int_type(m: Model, words: Words) -> Option<BaseRow>
    ensures { result ≡ known (int_type (model m) (counts words)) }
{
    let total = words.total();
    let ints = u64::from(words.int) + words.signs() + u64::from(words.long);
    if ints != total || total == 0 {
        return None;
    }
    let bytes = match words.long {
        0 => m.int,
        1 => m.long,
        2 => m.long_long,
        _ => return None,
    };
    Some(BaseRow::int(bytes, words.signedness()))
}

// The type that words make, if any.
#[tactic(auto, unfolding(crate::specs::Meaning::known, definition::specs::Specifier::combine))]
pub fn combine(m: Model, words: Words) -> Option<BaseRow>
    ensures { result ≡ known (combine (model m) (counts words)) }
{
    if 1 < words.signs() || 0 < words.complex {
        None
    } else if 0 < words.void {
        only_word(words, BaseRow::void())
    } else if 0 < words.bool {
        only_word(words, BaseRow::bool())
    } else if 0 < words.float {
        only_word(words, BaseRow::float(m.float))
    } else if 0 < words.double {
        double_type(m, words)
    } else if 0 < words.char {
        char_type(m, words)
    } else if 0 < words.short {
        short_type(m, words)
    } else {
        int_type(m, words)
    }
}

fn signed(bytes: u64) -> BaseRow
    ensures { result ≡ numbers (int bytes true) }
{
    BaseRow::int(bytes, true)
}

fn unsigned(bytes: u64) -> BaseRow
    ensures { result ≡ numbers (int bytes false) }
{
    BaseRow::int(bytes, false)
}

// The type of a name that every program assumes.
#[tactic(auto, unfolding(crate::specs::Meaning::known, definition::specs::Specifier::builtin, definition::specs::Specifier::type_in))]
pub fn builtin(m: Model, kind: TokenKind) -> Option<BaseRow>
    ensures { result ≡ known (builtin (model m) (kind_number kind)) }
{
    let row = match kind {
        TokenKind::Int8Name => signed(1),
        TokenKind::Int16Name => signed(2),
        TokenKind::Int32Name | TokenKind::WcharName => signed(4),
        TokenKind::Int64Name | TokenKind::IntmaxName => signed(8),
        TokenKind::IntptrName | TokenKind::SsizeName | TokenKind::PtrdiffName => signed(m.pointer),
        TokenKind::Uint8Name | TokenKind::Char8Name => unsigned(1),
        TokenKind::Uint16Name | TokenKind::Char16Name => unsigned(2),
        TokenKind::Uint32Name | TokenKind::Char32Name => unsigned(4),
        TokenKind::Uint64Name | TokenKind::UintmaxName => unsigned(8),
        TokenKind::UintptrName | TokenKind::SizeName => unsigned(m.pointer),
        TokenKind::BoolName => BaseRow::bool(),
        _ => return None,
    };
    Some(row)
}
