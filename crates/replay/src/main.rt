// Answers records from standard input: a line `MODEL ENTRY LENGTH`, as many bytes, a line feed. For each a line `answer N`, as many bytes, a line feed.
#![tactic(auto)]

ghost use Rattle.std.specs.Prelude.{◌≤◌, length, IfOk};

use encoding::regions::{SIGNEDS, WIDES, WORDS};
use entry_points::Entry;
use model::Model;
use reports::{listing_buffer, report};
use std::io;
use std::io::Read;
use streams::read_full;

// One byte more than a text may have: a longer one is refused as such, and the rest of it is passed over.
const TEXT: usize = Model::MAX_TEXT + 1;

// An entry is told by its first letter: `unit` or `decl`. Three more and a space follow.
const UNIT: u8 = b'u';

const ENTRY_REST: u64 = 4;

// A record but for its text.
struct Record {
    model: u32,
    entry: Entry,
    size: u64,
}

// The next byte, if there is one.
fn read_byte<R: Read>(input: &mut R) -> io::Result<Option<u8>> {
    let mut byte = [0];
    let n = read_full(input, &mut byte)?;
    Ok((n == 1).then_some(byte[0]))
}

// A number, and the byte after it, whatever that is. One that is too large counts as the largest.
fn read_number<R: Read>(input: &mut R) -> io::Result<u32> {
    let mut value = 0u32;
    for _ in 0..u32::MAX {
        match read_byte(input)? {
            Some(b @ b'0'..=b'9') => {
                value = value.saturating_mul(10).saturating_add(u32::from(b - b'0'));
            }
            _ => return Ok(value),
        }
    }
    Ok(value)
}

// Passes over bytes.
fn pass<R: Read>(input: &mut R, count: u64) -> io::Result<()> {
    io::copy(&mut input.by_ref().take(count), &mut io::sink())?;
    Ok(())
}

// The next record, if there is one. No record is malformed.
fn read_record<R: Read>(input: &mut R) -> io::Result<Option<Record>> {
    let model = read_number(input)?;
    let entry = match read_byte(input)? {
        None | Some(0) => return Ok(None),
        Some(UNIT) => Entry::WholeHeader,
        Some(_) => Entry::SingleDeclaration,
    };
    pass(input, ENTRY_REST)?;
    let size = u64::from(read_number(input)?);
    Ok(Some(Record { model, entry, size }))
}

// The text of a record, or the front of one that is too long, and the line feed after it.
fn read_text<R: Read>(input: &mut R, size: u64, text: &mut [u8]) -> io::Result<usize>
    ensures { IfOk result (λ n. n ≤ length text.new) }
{
    let mut rest = input.by_ref().take(size);
    let n = read_full(&mut rest, text)?;
    io::copy(&mut rest, &mut io::sink())?;
    read_full(input, &mut [0])?;
    Ok(n)
}

fn main(rt: HostRuntime) -> io::Result<()> {
    let mut text = [0u8; TEXT];
    let mut words = [0u32; WORDS];
    let mut wides = [0u64; WIDES];
    let mut signeds = [0i64; SIGNEDS];
    let mut out = listing_buffer();
    let mut input = rt.stdin();
    for _ in 0..u64::MAX {
        let Some(Record { model, entry, size }) = read_record(&mut input)? else {
            return Ok(());
        };
        let n = read_text(&mut input, size, &mut text)?;
        let size = report(
            entry,
            &text[..n],
            model,
            &mut words,
            &mut wides,
            &mut signeds,
            &mut out,
        );
        let Some(end) = out.get_mut(size) else {
            return rt.eprintln("replay: a listing is too long");
        };
        *end = b'\n';
        println!(rt; "answer {size}")?;
        rt.write_all(&out[..size + 1])?;
    }
    Ok(())
}
