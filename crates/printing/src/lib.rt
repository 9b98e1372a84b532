#![tactic(auto)]
// Bytes, numbers, names and the line of a refusal, written into a lent buffer. What is past the end of the buffer is counted and not written.
ghost use Rattle.std.specs.Prelude.{[], ◌∷◌, ◌≡◌, ◌<◌, ℕ, List};
ghost use Rattle.definition.specs.Byte.{space, line_feed};
ghost use Rattle.definition.specs.Listing.{digit_byte, decimal, signed_decimal, name_word, refused_line};
ghost use Rattle.printing.specs.Written.{Wrote, Writes};
ghost use Rattle.printing.specs.Words.{or_dash_of};

use arithmetic::magnitude;
use encoding::names::NAME_UNIT;

pub const SPACE: u8 = b' ';

pub const LINE_FEED: u8 = b'\n';

pub const DASH: u8 = b'-';

const TEN: u64 = 10;

const HUNDRED: u64 = 100;

// One byte at a place of a buffer: the place after it. A writer has its place in memory, so what writes many bytes keeps it in a local.
fn place_byte(buffer: &mut [u8], at: usize, b: u8) -> usize
    ensures { Wrote (b ∷ []) buffer.old at buffer.new result }
{
    if at < buffer.len() {
        buffer[at] = b;
        return at + 1;
    }
    at.saturating_add(1)
}

// Bytes from a place on.
fn place_bytes(buffer: &mut [u8], at: usize, s: &[u8]) -> usize
    ensures { Wrote s.now buffer.old at buffer.new result }
{
    let mut place = at;
    for b in s {
        place = place_byte(buffer, place, *b);
    }
    place
}

// The digits before the last two, then these.
fn place_digits(buffer: &mut [u8], at: usize, x: u64) -> usize
    ensures { Wrote (decimal x) buffer.old at buffer.new result }
{
    if x < TEN {
        return place_byte(buffer, at, digit(x));
    }
    let mut last = at;
    if HUNDRED <= x {
        last = place_digits(buffer, last, x / HUNDRED);
    }
    last = place_byte(buffer, last, digit(x / TEN % TEN));
    place_byte(buffer, last, digit(x % TEN))
}

// A lent buffer, and the place in it that is written next.
#[derive(Drop)]
pub struct Writer<'a> {
    pub buffer: &'a mut [u8],
    pub at: usize,
}

// A word of a line.
pub trait Word {
    ghost bytes: { Self → List ℕ };

    fn put(self, out: &mut Writer<'_>)
        ensures { Writes (bytes self) out.old out.new };
}

impl Writer<'_> {
    pub fn put_byte(&mut self, b: u8)
        ensures { Writes (b ∷ []) self.old self.new }
    {
        self.at = place_byte(self.buffer, self.at, b);
    }

    pub fn put<W: Word>(&mut self, word: W)
        ensures { Writes (W.bytes word) self.old self.new }
    {
        word.put(self);
    }

    // A word after a space.
    pub fn next<W: Word>(&mut self, word: W)
        ensures { Writes (space ∷ W.bytes word) self.old self.new }
    {
        self.put_byte(SPACE);
        word.put(self);
    }

    pub fn end_line(&mut self)
        ensures { Writes (line_feed ∷ []) self.old self.new }
    {
        self.put_byte(LINE_FEED);
    }
}

impl Word for &[u8] {
    ghost bytes = { λ s. s.now };

    fn put(self, out: &mut Writer<'_>) {
        out.at = place_bytes(out.buffer, out.at, self);
    }
}

impl Word for &str {
    ghost bytes = { λ s. s.now };

    fn put(self, out: &mut Writer<'_>) {
        self.as_bytes().put(out);
    }
}

fn digit(x: u64) -> u8
    requires { x < 10 }
    ensures { result ≡ digit_byte x }
{
    b'0' + (x as u8)
}

impl Word for u64 {
    ghost bytes = { decimal };

    fn put(self, out: &mut Writer<'_>) {
        if self < TEN {
            return out.put_byte(digit(self));
        }
        out.at = place_digits(out.buffer, out.at, self);
    }
}

impl Word for u32 {
    ghost bytes = { decimal };

    fn put(self, out: &mut Writer<'_>) {
        u64::from(self).put(out);
    }
}

impl Word for usize {
    ghost bytes = { decimal };

    fn put(self, out: &mut Writer<'_>) {
        (self as u64).put(out);
    }
}

impl Word for i64 {
    ghost bytes = { signed_decimal };

    fn put(self, out: &mut Writer<'_>) {
        if self < 0 {
            out.put_byte(DASH);
        }
        magnitude(self).put(out);
    }
}

// A word, or a dash where there is none.
impl<W: Word> Word for Option<W> {
    ghost bytes = { or_dash_of W.bytes };

    #[tactic(auto, unfolding(definition::specs::Text::bytes))]
    fn put(self, out: &mut Writer<'_>) {
        match self {
            Some(word) => word.put(out),
            None => out.put_byte(DASH),
        }
    }
}

// A name of a text: its bytes there, or a dash.
#[derive(Clone, Copy)]
pub struct Name<'a> {
    pub text: &'a [u8],
    pub name: u32,
}

impl Word for Name<'_> {
    ghost bytes = { λ n. name_word n.text.now n.name };

    fn put(self, out: &mut Writer<'_>) {
        let text = self.text;
        let name = self.name;
        if name == 0 {
            return out.put_byte(DASH);
        }
        let offset = (name % NAME_UNIT) as usize;
        let length = (name / NAME_UNIT) as usize;
        let rest = &text[offset.min(text.len())..];
        rest[..length.min(rest.len())].put(out);
    }
}

// The line of a refusal.
pub fn put_refused(out: &mut Writer<'_>, number: u32, offset: usize, line: usize, column: usize)
    ensures { Writes (refused_line number offset line column) out.old out.new }
{
    out.put("refused");
    out.next(number);
    out.next(offset);
    out.next(line);
    out.next(column);
    out.end_line();
}
