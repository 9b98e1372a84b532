// Kinds of type rows, by number.
ghost use Rattle.std.specs.Prelude.{◌≡◌};
ghost use Rattle.encoding.specs.Kinds.{row_kinds};

pub const VOID_KIND: u32 = 0;

pub const INT_KIND: u32 = 1;

pub const FLOAT_KIND: u32 = 2;

pub const BOOL_KIND: u32 = 3;

pub const POINTER_KIND: u32 = 4;

pub const ARRAY_KIND: u32 = 5;

pub const STRUCT_KIND: u32 = 6;

pub const UNION_KIND: u32 = 7;

pub const ENUM_KIND: u32 = 8;

pub const FUNCTION_KIND: u32 = 9;

pub const TYPEDEF_KIND: u32 = 10;

pub const QUALIFIED_KIND: u32 = 11;

// That each constant is the definition's.
pub fn row_kinds() -> [u32; 12]
    ensures { result ≡ row_kinds }
{
    [
        VOID_KIND,
        INT_KIND,
        FLOAT_KIND,
        BOOL_KIND,
        POINTER_KIND,
        ARRAY_KIND,
        STRUCT_KIND,
        UNION_KIND,
        ENUM_KIND,
        FUNCTION_KIND,
        TYPEDEF_KIND,
        QUALIFIED_KIND,
    ]
}
