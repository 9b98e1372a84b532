#![tactic(auto)]
// The words of a declaration that name no type: storage classes, qualifiers, and those that say nothing of the layout.
ghost use Rattle.std.specs.Prelude.{◌≡◌};
ghost use Rattle.definition.specs.Row.{is_some};
ghost use Rattle.encoding.specs.Kinds.{kind_number};
ghost use Rattle.words.specs.Meaning.{specifiers, base};
ghost use Rattle.specifier_words.specs.Untyped.{says_no_type, with_said};

use encoding::token_kinds::TokenKind;
use words::classes::{is_ignored_word, is_qualifier_word, is_storage_word};
use words::specifiers::Specifiers;
use words::storage::storage_of;

// A storage class, a qualifier, or a word that is passed over.
#[tactic(auto, unfolding(crate::specs::Untyped::says_no_type))]
pub fn says_no_type(kind: TokenKind) -> bool
    ensures { result ≡ says_no_type (kind_number kind) }
{
    is_storage_word(kind) || is_qualifier_word(kind) || is_ignored_word(kind)
}

// What is said with one more of these words.
#[tactic(auto, unfolding(crate::specs::Untyped::with_said))]
pub fn with_word(p: Specifiers, kind: TokenKind) -> Specifiers
    ensures { specifiers result ≡ with_said (specifiers p) (kind_number kind) }
{
    if is_storage_word(kind) {
        p.storing(storage_of(kind))
    } else if is_qualifier_word(kind) {
        p.qualifying(p.qualifiers.with_qualifier(kind))
    } else {
        p
    }
}

// The type is a row that was named.
pub fn has_base(p: Specifiers) -> bool
    ensures { result ≡ is_some (specifiers p).base }
{
    p.base.is_some()
}
