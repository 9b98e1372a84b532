// `const`, `volatile` and `restrict`.
ghost use Rattle.std.specs.Prelude.{◌≡◌};
ghost use Rattle.definition.specs.Row.{unqualified, qualifier_bits};
ghost use Rattle.definition.specs.Types.{is_unqualified, merged};
ghost use Rattle.definition.specs.Specifier.{with_qualifier};
ghost use Rattle.encoding.specs.Kinds.{kind_number};
ghost use Rattle.words.specs.Meaning.{qualifiers, qualifiers_in};

use encoding::token_kinds::TokenKind;

#[derive(Clone, Copy, Default, PartialEq, Eq)]
pub struct Qualifiers {
    pub is_const: bool,
    pub is_volatile: bool,
    pub is_restrict: bool,
}

impl Qualifiers {
    pub fn none() -> Qualifiers
        ensures { qualifiers result ≡ unqualified }
    {
        Qualifiers::default()
    }

    #[tactic(auto, unfolding(definition::specs::Specifier::with_qualifier))]
    pub fn with_qualifier(mut self, kind: TokenKind) -> Qualifiers
        ensures { qualifiers result ≡ with_qualifier (kind_number kind) (qualifiers self) }
    {
        self.is_const |= kind == TokenKind::ConstWord;
        self.is_volatile |= kind == TokenKind::VolatileWord;
        self.is_restrict |= kind == TokenKind::RestrictWord;
        self
    }

    #[tactic(auto, unfolding(definition::specs::Types::merged))]
    pub fn merged(self, other: Qualifiers) -> Qualifiers
        ensures { qualifiers result ≡ merged (qualifiers self) (qualifiers other) }
    {
        Qualifiers {
            is_const: self.is_const | other.is_const,
            is_volatile: self.is_volatile | other.is_volatile,
            is_restrict: self.is_restrict | other.is_restrict,
        }
    }

    #[tactic(auto, unfolding(definition::specs::Types::is_unqualified))]
    pub fn is_unqualified(self) -> bool
        ensures { result ≡ is_unqualified (qualifiers self) }
    {
        self == Qualifiers::none()
    }

    // As the flags of a row: c is 1, v is 2, r is 4.
    #[tactic(auto, unfolding(definition::specs::Row::qualifier_bits))]
    pub fn bits(self) -> u32
        ensures { result ≡ qualifier_bits (qualifiers self) }
    {
        u32::from(self.is_const) + 2 * u32::from(self.is_volatile) + 4 * u32::from(self.is_restrict)
    }

    // The qualifiers of a row's flags.
    #[tactic(auto, unfolding(crate::specs::Meaning::qualifiers_in))]
    pub fn from_bits(bits: u64) -> Qualifiers
        ensures { qualifiers result ≡ qualifiers_in bits }
    {
        Qualifiers {
            is_const: bits % 2 == 1,
            is_volatile: bits / 2 % 2 == 1,
            is_restrict: bits / 4 % 2 == 1,
        }
    }
}
