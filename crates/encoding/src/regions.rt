// The regions of the lent slices: how many numbers an entry has in each, where the entries of each kind begin, and which number stands where in an entry.
ghost use Rattle.std.specs.Prelude.{◌≡◌};
ghost use Rattle.encoding.specs.Regions.{columns, starts, lengths};

use model::Model;

// The 32-bit slice.
pub const ROW_COLUMNS: usize = 6;

pub const MEMBER_COLUMNS: usize = 4;

pub const VALUE_COLUMNS: usize = 2;

pub const PARAMETER_COLUMNS: usize = 3;

pub const DECLARATION_COLUMNS: usize = 3;

pub const NAME_COLUMNS: usize = 2;

pub const MEMBERS_AT: usize = ROW_COLUMNS * Model::MAX_ROWS;

pub const VALUES_AT: usize = MEMBERS_AT + MEMBER_COLUMNS * Model::MAX_MEMBERS;

pub const PARAMETERS_AT: usize = VALUES_AT + VALUE_COLUMNS * Model::MAX_VALUES;

pub const DECLARATIONS_AT: usize = PARAMETERS_AT + PARAMETER_COLUMNS * Model::MAX_PARAMETERS;

pub const NAMES_AT: usize = DECLARATIONS_AT + DECLARATION_COLUMNS * Model::MAX_DECLARATIONS;

pub const WORDS: usize = NAMES_AT + NAME_COLUMNS * Model::MAX_NAMES;

// The 64-bit slice. A row has one number there.
pub const MEMBER_WIDE_COLUMNS: usize = 2;

pub const MEMBER_WIDES_AT: usize = Model::MAX_ROWS;

pub const WIDES: usize = MEMBER_WIDES_AT + MEMBER_WIDE_COLUMNS * Model::MAX_MEMBERS;

// The signed 64-bit slice.
pub const SIGNEDS: usize = Model::MAX_VALUES;

// Columns that searches read.
pub const ROW_TARGET: usize = 1;

pub const ROW_NAME: usize = 3;

pub const MEMBER_NAME: usize = 2;

pub const VALUE_NAME: usize = 1;

pub const PARAMETER_TYPE: usize = 1;

pub const PARAMETER_NAME: usize = 2;

pub const DECLARATION_NAME: usize = 2;

// The row of an entry that belongs to no row, and of one whose list is still open: this plus the number of the list's first entry.
pub const NO_ROW: u32 = 0;

pub const OPEN_LIST: u32 = Model::MAX_ROWS as u32;

// That each is the definition's.
pub fn columns() -> [usize; 7]
    ensures { result ≡ columns }
{
    [
        ROW_COLUMNS,
        MEMBER_COLUMNS,
        VALUE_COLUMNS,
        PARAMETER_COLUMNS,
        DECLARATION_COLUMNS,
        NAME_COLUMNS,
        MEMBER_WIDE_COLUMNS,
    ]
}

pub fn starts() -> [usize; 6]
    ensures { result ≡ starts }
{
    [
        MEMBERS_AT,
        VALUES_AT,
        PARAMETERS_AT,
        DECLARATIONS_AT,
        NAMES_AT,
        MEMBER_WIDES_AT,
    ]
}

pub fn lengths() -> [usize; 3]
    ensures { result ≡ lengths }
{
    [WORDS, WIDES, SIGNEDS]
}
