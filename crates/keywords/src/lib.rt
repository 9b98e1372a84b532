#![tactic(auto)]
// The kind of a word, by its spelling.
ghost use Rattle.std.specs.Prelude.{◌≡◌, ◌<◌, length};
ghost use Rattle.encoding.specs.Kinds.{kind_number};
ghost use Rattle.definition.specs.Word.{kind_of};
ghost use Rattle.keywords.specs.Slots.{slot_of, spelling_of};

use encoding::token_kinds::TokenKind;

// The slot of a word.
#[tactic(auto, unfolding(crate::specs::Slots::slot_of))]
fn slot(word: &[u8]) -> usize
    requires { 0 < length word.now }
    ensures value { result ≡ slot_of word.now }
    ensures upper_bound { result < 128 }
{
    let n = word.len();
    let a = usize::from(word[0]);
    let m = usize::from(word[n / 2]);
    let b = usize::from(word[n - 1]);
    (33 * (n % 256) + 32 * a + 691 * m + 106 * b) / 8 % 128
}

// What stands in a slot: a spelling and its kind. An empty slot holds no word, and is as the others are, so that the compiler makes tables of them.
#[tactic(auto, unfolding(crate::specs::Slots::spelling_of, crate::specs::Slots::spellings, crate::specs::Slots::none, definition::specs::Text::bytes, definition::specs::Text::same, definition::specs::Word::kind_of, definition::specs::Word::kind_among, definition::specs::Word::words, definition::specs::Word::attribute_words, definition::specs::Word::keywords, definition::specs::Word::builtin_names))]
fn spelled(slot: usize) -> (&'static [u8], TokenKind)
    requires { slot < 128 }
    ensures spelling { result.0.now ≡ spelling_of slot }
    ensures kind { kind_number result.1 ≡ kind_of result.0.now }
{
    match slot {
        0 => (b"intmax_t", TokenKind::IntmaxName),
        1 => (b"asm", TokenKind::Attribute),
        2 => (b"void", TokenKind::VoidWord),
        6 => (b"_Thread_local", TokenKind::ThreadLocalWord),
        7 => (b"union", TokenKind::UnionWord),
        9 => (b"__attribute__", TokenKind::Attribute),
        10 => (b"__signed", TokenKind::SignedWord),
        13 => (b"__const", TokenKind::ConstWord),
        15 => (b"__restrict__", TokenKind::RestrictWord),
        19 => (b"ssize_t", TokenKind::SsizeName),
        21 => (b"uint8_t", TokenKind::Uint8Name),
        25 => (b"__volatile", TokenKind::VolatileWord),
        27 => (b"_Bool", TokenKind::BoolWord),
        28 => (b"register", TokenKind::RegisterWord),
        29 => (b"_Complex", TokenKind::ComplexWord),
        32 => (b"char8_t", TokenKind::Char8Name),
        33 => (b"float", TokenKind::FloatWord),
        34 => (b"int8_t", TokenKind::Int8Name),
        35 => (b"bool", TokenKind::BoolName),
        40 => (b"static", TokenKind::StaticWord),
        41 => (b"__const__", TokenKind::ConstWord),
        43 => (b"uint32_t", TokenKind::Uint32Name),
        44 => (b"_Atomic", TokenKind::AtomicWord),
        45 => (b"__signed__", TokenKind::SignedWord),
        46 => (b"uint64_t", TokenKind::Uint64Name),
        47 => (b"signed", TokenKind::SignedWord),
        50 => (b"long", TokenKind::LongWord),
        52 => (b"wchar_t", TokenKind::WcharName),
        53 => (b"__declspec", TokenKind::Attribute),
        54 => (b"char16_t", TokenKind::Char16Name),
        57 => (b"__extension__", TokenKind::ExtensionWord),
        59 => (b"__volatile__", TokenKind::VolatileWord),
        61 => (b"char", TokenKind::CharWord),
        62 => (b"const", TokenKind::ConstWord),
        63 => (b"__unsigned", TokenKind::UnsignedWord),
        64 => (b"sizeof", TokenKind::SizeofWord),
        65 => (b"uintmax_t", TokenKind::UintmaxName),
        66 => (b"enum", TokenKind::EnumWord),
        68 => (b"uintptr_t", TokenKind::UintptrName),
        71 => (b"__inline", TokenKind::InlineWord),
        72 => (b"typedef", TokenKind::TypedefWord),
        73 => (b"__restrict", TokenKind::RestrictWord),
        74 => (b"int16_t", TokenKind::Int16Name),
        78 => (b"int", TokenKind::IntWord),
        80 => (b"__asm__", TokenKind::Attribute),
        83 => (b"ptrdiff_t", TokenKind::PtrdiffName),
        85 => (b"short", TokenKind::ShortWord),
        86 => (b"volatile", TokenKind::VolatileWord),
        88 => (b"__unsigned__", TokenKind::UnsignedWord),
        90 => (b"__attribute", TokenKind::Attribute),
        94 => (b"__complex__", TokenKind::ComplexWord),
        95 => (b"struct", TokenKind::StructWord),
        96 => (b"restrict", TokenKind::RestrictWord),
        98 => (b"unsigned", TokenKind::UnsignedWord),
        99 => (b"char32_t", TokenKind::Char32Name),
        100 => (b"inline", TokenKind::InlineWord),
        102 => (b"_Noreturn", TokenKind::NoreturnWord),
        105 => (b"intptr_t", TokenKind::IntptrName),
        111 => (b"__asm", TokenKind::Attribute),
        114 => (b"extern", TokenKind::ExternWord),
        115 => (b"double", TokenKind::DoubleWord),
        118 => (b"auto", TokenKind::AutoWord),
        119 => (b"int32_t", TokenKind::Int32Name),
        121 => (b"size_t", TokenKind::SizeName),
        122 => (b"int64_t", TokenKind::Int64Name),
        125 => (b"__inline__", TokenKind::InlineWord),
        126 => (b"uint16_t", TokenKind::Uint16Name),
        _ => (b"\0\0\0\0\0\0\0\0\0\0\0\0\0\0\0", TokenKind::Identifier),
    }
}

// The kind of a word. Never inlined: into a caller that tests the kind, the slots become jumps and no tables.
#[inline(never)]
#[tactic(auto, using(crate::proofs::Slotted::missed, crate::proofs::Slotted::no_letters))]
pub fn kind_of(word: &[u8]) -> TokenKind
    ensures { kind_number result ≡ kind_of word.now }
{
    if word.is_empty() {
        return TokenKind::Identifier;
    }
    let (spelling, kind) = spelled(slot(word));
    if word == spelling {
        kind
    } else {
        TokenKind::Identifier
    }
}
