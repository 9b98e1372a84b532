// The refusals: why a text is refused, and where.
ghost use Rattle.std.specs.Prelude.{◌≡◌};
ghost use Rattle.encoding.specs.Refusals.{number_of};

// Why, with the number of each.
#[derive(Clone, Copy, PartialEq, Eq)]
pub enum Reason {
    BadCall = 1,
    TextTooLong = 2,
    NotAscii = 3,
    MacroLine = 4,
    NotClosed = 5,
    BadLiteral = 6,
    StrayByte = 7,
    OutOfRange = 8,
    TooDeep = 9,
    MissingMark = 10,
    BadTypeWords = 11,
    UnknownType = 12,
    LayoutAttribute = 13,
    MissingName = 14,
    TypedefChanged = 15,
    ImpossibleType = 16,
    MemberStorage = 17,
    BadBound = 18,
    BadWidth = 19,
    UnknownSize = 20,
    RecordTooLarge = 21,
    DivisionByZero = 22,
    NoConstant = 23,
    NotOneDeclaration = 24,
    FixedEnum = 25,
    LayoutOverflow = 26,
    LimitPassed = 27,
}

impl From<Reason> for u32 {
    ghost from_gives = { λ reason number. number ≡ number_of reason };

    fn from(reason: Reason) -> u32 {
        reason as u32
    }
}

// Where is an offset in the text, or the index of a token.
#[derive(Clone, Copy, PartialEq, Eq)]
pub struct Refusal {
    pub reason: Reason,
    pub at: usize,
}
