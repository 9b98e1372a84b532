// Kinds of tokens. Each class of words is a range of them.
ghost use Rattle.std.specs.Prelude.{◌≡◌, ◌==◌};
ghost use Rattle.std.specs.Ordering.{nat_cmp, on, as_partial_cmp};
ghost use Rattle.std.proofs.Common.{rules};
ghost use Rattle.std.specs.Cmp.{partial_order_from_own_ties};
ghost use Rattle.std.specs.Cmp.Rules.{comparing};
ghost use Rattle.encoding.specs.Kinds.{kind_number};
ghost use Rattle.lemmas.proofs.Ties.{nat_tie};

use crate::other_kind::OtherKind;
use std::cmp::Ordering;

// In the order of the definition's numbers.
#[derive(Clone, Copy)]
pub enum TokenKind {
    // What is no word.
    End, // past the last token
    Number, // a number, or a character constant
    Text, // a string
    Attribute, // an attribute that changes a layout

    // Names: any, and those that <stdint.h> and its like provide.
    Identifier, // any other word: a name
    Int8Name, // int8_t
    Int16Name, // int16_t
    Int32Name, // int32_t
    Int64Name, // int64_t
    Uint8Name, // uint8_t
    Uint16Name, // uint16_t
    Uint32Name, // uint32_t
    Uint64Name, // uint64_t
    IntmaxName, // intmax_t
    UintmaxName, // uintmax_t
    IntptrName, // intptr_t
    SsizeName, // ssize_t
    PtrdiffName, // ptrdiff_t
    UintptrName, // uintptr_t
    SizeName, // size_t
    WcharName, // wchar_t
    Char8Name, // char8_t
    Char16Name, // char16_t
    Char32Name, // char32_t
    BoolName, // bool

    // Keywords: the words of a type.
    VoidWord, // void
    CharWord, // char
    ShortWord, // short
    IntWord, // int
    LongWord, // long
    FloatWord, // float
    DoubleWord, // double
    SignedWord, // signed
    UnsignedWord, // unsigned
    BoolWord, // _Bool
    ComplexWord, // _Complex

    // Keywords: what a tag follows.
    StructWord, // struct
    UnionWord, // union
    EnumWord, // enum

    // Keywords: qualifiers.
    ConstWord, // const
    VolatileWord, // volatile
    RestrictWord, // restrict
    AtomicWord, // _Atomic

    // Keywords: storage.
    TypedefWord, // typedef
    ExternWord, // extern
    StaticWord, // static
    AutoWord, // auto
    RegisterWord, // register

    // Keywords: words that say nothing of the type.
    InlineWord, // inline
    NoreturnWord, // _Noreturn
    ThreadLocalWord, // _Thread_local
    ExtensionWord, // __extension__

    // The last keyword.
    SizeofWord, // sizeof

    // Marks, longest first.
    Ellipsis, // ...
    ShiftLeft, // <<
    ShiftRight, // >>
    LessEqual, // <=
    GreaterEqual, // >=
    EqualEqual, // ==
    NotEqual, // !=
    AndAnd, // &&
    OrOr, // ||
    OpenParen, // (
    CloseParen, // )
    OpenBracket, // [
    CloseBracket, // ]
    OpenBrace, // {
    CloseBrace, // }
    Star, // *
    Comma, // ,
    Semicolon, // ;
    Colon, // :
    Question, // ?
    Equals, // =
    Plus, // +
    Minus, // -
    Tilde, // ~
    Bang, // !
    Slash, // /
    Percent, // %
    Ampersand, // &
    Caret, // ^
    Bar, // |
    Less, // <
    Greater, // >
    Dot, // .

    // Any number past these.
    Other(OtherKind),
}

// Its number in the definition.
impl From<TokenKind> for u32 {
    ghost from_gives = { λ kind number. number ≡ kind_number kind };

    fn from(kind: TokenKind) -> u32 {
        match kind {
            TokenKind::End => 0,
            TokenKind::Number => 1,
            TokenKind::Text => 2,
            TokenKind::Attribute => 3,
            TokenKind::Identifier => 4,
            TokenKind::Int8Name => 5,
            TokenKind::Int16Name => 6,
            TokenKind::Int32Name => 7,
            TokenKind::Int64Name => 8,
            TokenKind::Uint8Name => 9,
            TokenKind::Uint16Name => 10,
            TokenKind::Uint32Name => 11,
            TokenKind::Uint64Name => 12,
            TokenKind::IntmaxName => 13,
            TokenKind::UintmaxName => 14,
            TokenKind::IntptrName => 15,
            TokenKind::SsizeName => 16,
            TokenKind::PtrdiffName => 17,
            TokenKind::UintptrName => 18,
            TokenKind::SizeName => 19,
            TokenKind::WcharName => 20,
            TokenKind::Char8Name => 21,
            TokenKind::Char16Name => 22,
            TokenKind::Char32Name => 23,
            TokenKind::BoolName => 24,
            TokenKind::VoidWord => 25,
            TokenKind::CharWord => 26,
            TokenKind::ShortWord => 27,
            TokenKind::IntWord => 28,
            TokenKind::LongWord => 29,
            TokenKind::FloatWord => 30,
            TokenKind::DoubleWord => 31,
            TokenKind::SignedWord => 32,
            TokenKind::UnsignedWord => 33,
            TokenKind::BoolWord => 34,
            TokenKind::ComplexWord => 35,
            TokenKind::StructWord => 36,
            TokenKind::UnionWord => 37,
            TokenKind::EnumWord => 38,
            TokenKind::ConstWord => 39,
            TokenKind::VolatileWord => 40,
            TokenKind::RestrictWord => 41,
            TokenKind::AtomicWord => 42,
            TokenKind::TypedefWord => 43,
            TokenKind::ExternWord => 44,
            TokenKind::StaticWord => 45,
            TokenKind::AutoWord => 46,
            TokenKind::RegisterWord => 47,
            TokenKind::InlineWord => 48,
            TokenKind::NoreturnWord => 49,
            TokenKind::ThreadLocalWord => 50,
            TokenKind::ExtensionWord => 51,
            TokenKind::SizeofWord => 52,
            TokenKind::Ellipsis => 53,
            TokenKind::ShiftLeft => 54,
            TokenKind::ShiftRight => 55,
            TokenKind::LessEqual => 56,
            TokenKind::GreaterEqual => 57,
            TokenKind::EqualEqual => 58,
            TokenKind::NotEqual => 59,
            TokenKind::AndAnd => 60,
            TokenKind::OrOr => 61,
            TokenKind::OpenParen => 62,
            TokenKind::CloseParen => 63,
            TokenKind::OpenBracket => 64,
            TokenKind::CloseBracket => 65,
            TokenKind::OpenBrace => 66,
            TokenKind::CloseBrace => 67,
            TokenKind::Star => 68,
            TokenKind::Comma => 69,
            TokenKind::Semicolon => 70,
            TokenKind::Colon => 71,
            TokenKind::Question => 72,
            TokenKind::Equals => 73,
            TokenKind::Plus => 74,
            TokenKind::Minus => 75,
            TokenKind::Tilde => 76,
            TokenKind::Bang => 77,
            TokenKind::Slash => 78,
            TokenKind::Percent => 79,
            TokenKind::Ampersand => 80,
            TokenKind::Caret => 81,
            TokenKind::Bar => 82,
            TokenKind::Less => 83,
            TokenKind::Greater => 84,
            TokenKind::Dot => 85,
            TokenKind::Other(kind) => kind.number,
        }
    }
}

// Each number has a kind.
impl From<u32> for TokenKind {
    ghost from_gives = { λ number kind. kind_number kind ≡ number };

    fn from(number: u32) -> TokenKind {
        match number {
            0 => TokenKind::End,
            1 => TokenKind::Number,
            2 => TokenKind::Text,
            3 => TokenKind::Attribute,
            4 => TokenKind::Identifier,
            5 => TokenKind::Int8Name,
            6 => TokenKind::Int16Name,
            7 => TokenKind::Int32Name,
            8 => TokenKind::Int64Name,
            9 => TokenKind::Uint8Name,
            10 => TokenKind::Uint16Name,
            11 => TokenKind::Uint32Name,
            12 => TokenKind::Uint64Name,
            13 => TokenKind::IntmaxName,
            14 => TokenKind::UintmaxName,
            15 => TokenKind::IntptrName,
            16 => TokenKind::SsizeName,
            17 => TokenKind::PtrdiffName,
            18 => TokenKind::UintptrName,
            19 => TokenKind::SizeName,
            20 => TokenKind::WcharName,
            21 => TokenKind::Char8Name,
            22 => TokenKind::Char16Name,
            23 => TokenKind::Char32Name,
            24 => TokenKind::BoolName,
            25 => TokenKind::VoidWord,
            26 => TokenKind::CharWord,
            27 => TokenKind::ShortWord,
            28 => TokenKind::IntWord,
            29 => TokenKind::LongWord,
            30 => TokenKind::FloatWord,
            31 => TokenKind::DoubleWord,
            32 => TokenKind::SignedWord,
            33 => TokenKind::UnsignedWord,
            34 => TokenKind::BoolWord,
            35 => TokenKind::ComplexWord,
            36 => TokenKind::StructWord,
            37 => TokenKind::UnionWord,
            38 => TokenKind::EnumWord,
            39 => TokenKind::ConstWord,
            40 => TokenKind::VolatileWord,
            41 => TokenKind::RestrictWord,
            42 => TokenKind::AtomicWord,
            43 => TokenKind::TypedefWord,
            44 => TokenKind::ExternWord,
            45 => TokenKind::StaticWord,
            46 => TokenKind::AutoWord,
            47 => TokenKind::RegisterWord,
            48 => TokenKind::InlineWord,
            49 => TokenKind::NoreturnWord,
            50 => TokenKind::ThreadLocalWord,
            51 => TokenKind::ExtensionWord,
            52 => TokenKind::SizeofWord,
            53 => TokenKind::Ellipsis,
            54 => TokenKind::ShiftLeft,
            55 => TokenKind::ShiftRight,
            56 => TokenKind::LessEqual,
            57 => TokenKind::GreaterEqual,
            58 => TokenKind::EqualEqual,
            59 => TokenKind::NotEqual,
            60 => TokenKind::AndAnd,
            61 => TokenKind::OrOr,
            62 => TokenKind::OpenParen,
            63 => TokenKind::CloseParen,
            64 => TokenKind::OpenBracket,
            65 => TokenKind::CloseBracket,
            66 => TokenKind::OpenBrace,
            67 => TokenKind::CloseBrace,
            68 => TokenKind::Star,
            69 => TokenKind::Comma,
            70 => TokenKind::Semicolon,
            71 => TokenKind::Colon,
            72 => TokenKind::Question,
            73 => TokenKind::Equals,
            74 => TokenKind::Plus,
            75 => TokenKind::Minus,
            76 => TokenKind::Tilde,
            77 => TokenKind::Bang,
            78 => TokenKind::Slash,
            79 => TokenKind::Percent,
            80 => TokenKind::Ampersand,
            81 => TokenKind::Caret,
            82 => TokenKind::Bar,
            83 => TokenKind::Less,
            84 => TokenKind::Greater,
            85 => TokenKind::Dot,
            _ => TokenKind::Other(OtherKind { number }),
        }
    }
}

// Kinds are compared by their numbers, as the definition compares them.
impl PartialEq for TokenKind {
    ghost eq = { on kind_number ◌==◌ };

    ghost laws = { Prim.search (comparing, rules) };

    fn eq(&self, other: &TokenKind) -> bool {
        u32::from(*self) == u32::from(*other)
    }
}

impl Eq for TokenKind {
    ghost laws = { Prim.search (comparing, rules) };
}

impl PartialOrd for TokenKind {
    ghost partial_cmp = { as_partial_cmp (on kind_number nat_cmp) };

    ghost laws = { partial_order_from_own_ties (Prim.search (comparing, rules)) (λ x y. nat_tie (kind_number x) (kind_number y)) };

    fn partial_cmp(&self, other: &TokenKind) -> Option<Ordering> {
        Some(self.cmp(other))
    }
}

impl Ord for TokenKind {
    ghost cmp = { on kind_number nat_cmp };

    ghost total = { Prim.search (comparing, rules) };

    ghost matches_partial_cmp = { Prim.search (comparing, rules) };

    ghost matches_eq = { λ x y. nat_tie (kind_number x) (kind_number y) };

    fn cmp(&self, other: &TokenKind) -> Ordering {
        u32::from(*self).cmp(&u32::from(*other))
    }
}
