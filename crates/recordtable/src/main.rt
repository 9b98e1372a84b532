// The table of the header on standard input, for lp64, in the lines of document 01.
#![tactic(auto)]

use encoding::regions::{SIGNEDS, WIDES, WORDS};
use entry_points::Entry;
use model::Model;
use reports::{LISTING, listing_buffer, report};
use std::io;
use std::io::Write;
use streams::read_full;

// One byte more than a text may have: a longer one is refused as such, and the rest of it is not read.
const TEXT: usize = Model::MAX_TEXT + 1;

fn main(rt: HostRuntime) -> io::Result<()> {
    let mut text = [0u8; TEXT];
    let mut words = [0u32; WORDS];
    let mut wides = [0u64; WIDES];
    let mut signeds = [0i64; SIGNEDS];
    let mut out = listing_buffer();
    let n = read_full(&mut rt.stdin(), &mut text)?;
    let size = report(
        Entry::WholeHeader,
        &text[..n],
        Model::LP64,
        &mut words,
        &mut wides,
        &mut signeds,
        &mut out,
    );
    if size <= LISTING {
        return rt.stdout().write_all(&out[..size]);
    }
    rt.stderr()
        .write_all(b"recordtable: the listing is too long\n")
}
