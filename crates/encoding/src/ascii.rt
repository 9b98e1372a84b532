// Bytes by name, as the lexer reads them: in 32 bits, since what stands past the end is no byte.
ghost use Rattle.std.specs.Prelude.{◌≡◌};
ghost use Rattle.encoding.specs.Ascii.{ascii};

pub const LINE_FEED: u32 = b'\n' as u32;

pub const SPACE: u32 = b' ' as u32;

pub const BANG: u32 = b'!' as u32;

pub const QUOTE: u32 = b'"' as u32;

pub const HASH: u32 = b'#' as u32;

pub const PERCENT: u32 = b'%' as u32;

pub const AMPERSAND: u32 = b'&' as u32;

pub const APOSTROPHE: u32 = b'\'' as u32;

pub const OPEN_PAREN: u32 = b'(' as u32;

pub const CLOSE_PAREN: u32 = b')' as u32;

pub const STAR: u32 = b'*' as u32;

pub const PLUS: u32 = b'+' as u32;

pub const COMMA: u32 = b',' as u32;

pub const MINUS: u32 = b'-' as u32;

pub const DOT: u32 = b'.' as u32;

pub const SLASH: u32 = b'/' as u32;

pub const COLON: u32 = b':' as u32;

pub const SEMICOLON: u32 = b';' as u32;

pub const LESS: u32 = b'<' as u32;

pub const EQUALS: u32 = b'=' as u32;

pub const GREATER: u32 = b'>' as u32;

pub const QUESTION: u32 = b'?' as u32;

pub const OPEN_BRACKET: u32 = b'[' as u32;

pub const BACKSLASH: u32 = b'\\' as u32;

pub const CLOSE_BRACKET: u32 = b']' as u32;

pub const CARET: u32 = b'^' as u32;

pub const OPEN_BRACE: u32 = b'{' as u32;

pub const BAR: u32 = b'|' as u32;

pub const CLOSE_BRACE: u32 = b'}' as u32;

pub const TILDE: u32 = b'~' as u32;

// That each is the byte of its character.
pub fn ascii() -> [u32; 30]
    ensures { result ≡ ascii }
{
    [
        LINE_FEED,
        SPACE,
        BANG,
        QUOTE,
        HASH,
        PERCENT,
        AMPERSAND,
        APOSTROPHE,
        OPEN_PAREN,
        CLOSE_PAREN,
        STAR,
        PLUS,
        COMMA,
        MINUS,
        DOT,
        SLASH,
        COLON,
        SEMICOLON,
        LESS,
        EQUALS,
        GREATER,
        QUESTION,
        OPEN_BRACKET,
        BACKSLASH,
        CLOSE_BRACKET,
        CARET,
        OPEN_BRACE,
        BAR,
        CLOSE_BRACE,
        TILDE,
    ]
}
