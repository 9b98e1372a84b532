// How often each type word was read.
ghost use Rattle.std.specs.Prelude.{◌≡◌, true};
ghost use Rattle.definition.specs.Limit.{max_text};
ghost use Rattle.definition.specs.Specifier.{no_words, with_word, total, signs, signedness, is_type_word};
ghost use Rattle.encoding.specs.Kinds.{kind_number};
ghost use Rattle.words.specs.Meaning.{counts};
ghost use Rattle.words.specs.AtMost.{AtMost};

use encoding::token_kinds::TokenKind;

#[derive(Clone, Copy, Default)]
pub struct Words {
    pub void: u32,
    pub char: u32,
    pub short: u32,
    pub int: u32,
    pub long: u32,
    pub float: u32,
    pub double: u32,
    pub signed: u32,
    pub unsigned: u32,
    pub bool: u32,
    pub complex: u32,
}

impl Words {
    pub fn none() -> Words
        ensures { counts result ≡ no_words }
    {
        Words::default()
    }

    // One more of a type word.
    #[tactic(auto, unfolding(definition::specs::Specifier::with_word, definition::specs::Specifier::total, definition::specs::Specifier::is_type_word))]
    pub fn with_word(mut self, kind: TokenKind) -> Words
        requires at_most { AtMost max_text (counts self) }
        requires kind_value { is_type_word (kind_number kind) ≡ true }
        ensures { counts result ≡ with_word (kind_number kind) (counts self) }
    {
        match kind {
            TokenKind::VoidWord => self.void += 1,
            TokenKind::CharWord => self.char += 1,
            TokenKind::ShortWord => self.short += 1,
            TokenKind::IntWord => self.int += 1,
            TokenKind::LongWord => self.long += 1,
            TokenKind::FloatWord => self.float += 1,
            TokenKind::DoubleWord => self.double += 1,
            TokenKind::SignedWord => self.signed += 1,
            TokenKind::UnsignedWord => self.unsigned += 1,
            TokenKind::BoolWord => self.bool += 1,
            _ => self.complex += 1,
        }
        self
    }

    // How many `signed` and `unsigned` there are.
    pub fn signs(self) -> u64
        ensures { result ≡ signs (counts self) }
    {
        u64::from(self.signed) + u64::from(self.unsigned)
    }

    // Signed unless `unsigned` is said.
    pub fn signedness(self) -> bool
        ensures { result ≡ signedness (counts self) }
    {
        self.unsigned == 0
    }

    // How many words there are.
    #[tactic(auto, unfolding(definition::specs::Specifier::total))]
    pub fn total(self) -> u64
        ensures { result ≡ total (counts self) }
    {
        u64::from(self.void)
            + u64::from(self.char)
            + u64::from(self.short)
            + u64::from(self.int)
            + u64::from(self.long)
            + u64::from(self.float)
            + u64::from(self.double)
            + u64::from(self.signed)
            + u64::from(self.unsigned)
            + u64::from(self.bool)
            + u64::from(self.complex)
    }
}
