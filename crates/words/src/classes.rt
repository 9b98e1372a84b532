// Classes of words, by the kind of a token.
#![tactic(auto, unfolding(definition::specs::Kind::is_name, definition::specs::Kind::is_word, definition::specs::Specifier::is_storage_word, definition::specs::Specifier::is_qualifier_word, definition::specs::Specifier::is_ignored_word, definition::specs::Specifier::is_type_word, definition::specs::Specifiers::is_tag_word))]

ghost use Rattle.std.specs.Prelude.{◌≡◌};
ghost use Rattle.definition.specs.Kind.{is_name, is_word};
ghost use Rattle.definition.specs.Specifier.{is_storage_word, is_qualifier_word, is_ignored_word, is_type_word};
ghost use Rattle.definition.specs.Specifiers.{is_tag_word};
ghost use Rattle.encoding.specs.Kinds.{kind_number};

use encoding::token_kinds::TokenKind;

// A word that is no keyword.
pub fn is_name(kind: TokenKind) -> bool
    ensures { result ≡ is_name (kind_number kind) }
{
    TokenKind::Identifier <= kind && kind <= TokenKind::BoolName
}

// Any word.
pub fn is_word(kind: TokenKind) -> bool
    ensures { result ≡ is_word (kind_number kind) }
{
    TokenKind::Identifier <= kind && kind <= TokenKind::SizeofWord
}

pub fn is_storage_word(kind: TokenKind) -> bool
    ensures { result ≡ is_storage_word (kind_number kind) }
{
    TokenKind::TypedefWord <= kind && kind <= TokenKind::RegisterWord
}

pub fn is_qualifier_word(kind: TokenKind) -> bool
    ensures { result ≡ is_qualifier_word (kind_number kind) }
{
    TokenKind::ConstWord <= kind && kind <= TokenKind::RestrictWord
}

// `_Atomic`, `inline` and the like say nothing of the layout.
pub fn is_ignored_word(kind: TokenKind) -> bool
    ensures { result ≡ is_ignored_word (kind_number kind) }
{
    kind == TokenKind::AtomicWord
        || TokenKind::InlineWord <= kind && kind <= TokenKind::ExtensionWord
}

pub fn is_type_word(kind: TokenKind) -> bool
    ensures { result ≡ is_type_word (kind_number kind) }
{
    TokenKind::VoidWord <= kind && kind <= TokenKind::ComplexWord
}

// `struct`, `union` or `enum`.
pub fn is_tag_word(kind: TokenKind) -> bool
    ensures { result ≡ is_tag_word (kind_number kind) }
{
    TokenKind::StructWord <= kind && kind <= TokenKind::EnumWord
}
