// What a declaration's specifiers say: storage, qualifiers, and the words or the row of its type.
ghost use Rattle.std.specs.Prelude.{◌≡◌, true};
ghost use Rattle.definition.specs.Limit.{max_text};
ghost use Rattle.definition.specs.Specifier.{no_specifiers, storing, qualifying, based_on, wording, names_type, is_type_word};
ghost use Rattle.encoding.specs.Storage.{storage};
ghost use Rattle.encoding.specs.Kinds.{kind_number};
ghost use Rattle.words.specs.Meaning.{specifiers, qualifiers, counts};
ghost use Rattle.words.specs.AtMost.{AtMost};

use crate::counts::Words;
use crate::qualifiers::Qualifiers;
use encoding::storage::Storage;
use encoding::token_kinds::TokenKind;

// The base is the row of a struct, union, enum or type name.
#[derive(Clone, Copy)]
pub struct Specifiers {
    pub storage: Storage,
    pub qualifiers: Qualifiers,
    pub base: Option<u32>,
    pub words: Words,
}

impl Specifiers {
    pub fn none() -> Specifiers
        ensures { specifiers result ≡ no_specifiers }
    {
        Specifiers {
            storage: Storage::NoStorage,
            qualifiers: Qualifiers::none(),
            base: None,
            words: Words::none(),
        }
    }

    pub fn storing(self, class: Storage) -> Specifiers
        ensures { specifiers result ≡ storing (specifiers self) (storage class) }
    {
        Specifiers {
            storage: class,
            ..self
        }
    }

    pub fn qualifying(self, said: Qualifiers) -> Specifiers
        ensures { specifiers result ≡ qualifying (specifiers self) (qualifiers said) }
    {
        Specifiers {
            qualifiers: said,
            ..self
        }
    }

    pub fn based_on(self, row: u32) -> Specifiers
        ensures { specifiers result ≡ based_on (specifiers self) row }
    {
        Specifiers {
            base: Some(row),
            ..self
        }
    }

    // One more of a type word.
    pub fn wording(self, kind: TokenKind) -> Specifiers
        requires at_most { AtMost max_text (counts self.words) }
        requires kind_value { is_type_word (kind_number kind) ≡ true }
        ensures { specifiers result ≡ wording (specifiers self) (kind_number kind) }
    {
        Specifiers {
            words: self.words.with_word(kind),
            ..self
        }
    }

    // A type has been named, by a row or by words.
    #[tactic(auto, unfolding(definition::specs::Specifier::names_type))]
    pub fn names_type(self) -> bool
        ensures { result ≡ names_type (specifiers self) }
    {
        self.base.is_some() || 0 < self.words.total()
    }
}
