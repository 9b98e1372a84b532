// A name in one number: its length in units of this, and its offset below that.
ghost use Rattle.std.specs.Prelude.{◌≡◌, ◌^◌, ◌<◌};
ghost use Rattle.definition.specs.Name.{name_of, offset_of, length_of};
ghost use Rattle.encoding.specs.Names.{names};

pub const NAME_UNIT: u32 = 65536;

pub const NO_NAME: u32 = 0;

// That both are the definition's.
pub fn names() -> [u32; 2]
    ensures { result ≡ names }
{
    [NAME_UNIT, NO_NAME]
}

// A name: where its spelling stands in the text, and how long it is.
#[derive(Clone, Copy)]
pub struct Name {
    pub offset: usize,
    pub length: usize,
}

impl Name {
    // The name that a number says.
    #[tactic(auto, unfolding(definition::specs::Name::offset_of, definition::specs::Name::length_of))]
    pub fn numbered(number: u64) -> Name
        ensures offset { result.offset ≡ offset_of number }
        ensures length { result.length ≡ length_of number }
    {
        Name {
            offset: (number % u64::from(NAME_UNIT)) as usize,
            length: (number / u64::from(NAME_UNIT)) as usize,
        }
    }

    // Its number.
    #[tactic(auto, unfolding(definition::specs::Name::name_of))]
    pub fn number(self) -> u64
        requires offset_in_range { self.offset < 2 ^ 32 }
        requires length_in_range { self.length < 2 ^ 32 }
        ensures { result ≡ name_of self.offset self.length }
    {
        u64::from(NAME_UNIT) * (self.length as u64) + (self.offset as u64)
    }
}
