#![tactic(auto)]
// What is printed of a text, written into a lent buffer: the listing of an accepted table, or the line of a refusal.
// What is past the end of the buffer is counted and not written.
ghost use Rattle.std.specs.Prelude.{◌≡◌, replicate};
ghost use Rattle.definition.specs.Model.{model_of};
ghost use Rattle.definition.specs.Entry.{outcome};
ghost use Rattle.definition.specs.Lent.{long_enough, left_in};
ghost use Rattle.definition.specs.Listing.{or_lp64, printed_outcome};
ghost use Rattle.clearing.specs.Slices.{lent};
ghost use Rattle.printing.specs.Written.{Wrote};
ghost use Rattle.model.specs.Meaning.{model};
ghost use Rattle.entry_points.specs.Answers.{entry_of, told};
ghost use Rattle.reports.specs.Printed.{buffer_length, cursor_of, Table, Lists, Answered, Prints};

use encoding::regions::{SIGNEDS, WIDES, WORDS};
use entry_points::{Counts, Entry, Outcome, outcome};
use listing::put_listing;
use model::Model;
use printing::{Writer, put_refused};
use table::Cursor;

// More than any listing has: that of an accepted text is at most `maxListing` bytes long (crate `listing_length`).
pub const LISTING: usize = 1048576;

// A buffer for a listing, of zeros.
pub fn listing_buffer() -> [u8; LISTING]
    ensures { result ≡ replicate buffer_length 0 }
{
    [0; LISTING]
}

#[tactic(auto, using(crate::proofs::Outcomes::model_same))]
fn model_numbered(number: u32) -> Model
    ensures { model result ≡ or_lp64 (model_of number) }
{
    Model::numbered(number).unwrap_or(Model::lp64())
}

fn cursor_of(counts: Counts) -> Cursor
    ensures { result ≡ cursor_of counts }
{
    Cursor {
        at: 0,
        rows: counts.rows,
        members: counts.members,
        values: counts.values,
        parameters: counts.parameters,
        declarations: counts.declarations,
    }
}

// The slices may be longer than a table: it stands in their front.
fn put_table(
    out: &mut Writer<'_>,
    text: &[u8],
    m: Model,
    w: &[u32],
    d: &[u64],
    v: &[i64],
    counts: Counts,
)
    requires { Table counts w.now d.now v.now }
    ensures { Lists text.now (model m) counts w.now d.now v.now out.old out.new }
{
    put_listing(
        out,
        text,
        m,
        &w[..WORDS],
        &d[..WIDES],
        &v[..SIGNEDS],
        cursor_of(counts),
    );
}

fn put_outcome(
    out: &mut Writer<'_>,
    text: &[u8],
    number: u32,
    w: &[u32],
    d: &[u64],
    v: &[i64],
    outcome: Outcome,
)
    requires { Answered number text.now (told outcome) w.now d.now v.now }
    ensures { Prints number text.now (told outcome) w.now d.now v.now out.old out.new }
{
    match outcome {
        Ok(counts) => put_table(out, text, model_numbered(number), w, d, v, counts),
        Err(e) => put_refused(out, u32::from(e.reason), e.offset, e.line, e.column),
    }
}

// What is printed of a text by an entry. The lent slices are left as the call of the entry leaves them.
pub fn report(
    entry: Entry,
    text: &[u8],
    model: u32,
    words: &mut [u32],
    wides: &mut [u64],
    signeds: &mut [i64],
    out: &mut [u8],
) -> usize
    ensures wrote { Wrote (printed_outcome model text.now (outcome model (long_enough (lent words.old wides.old signeds.old)) (entry_of entry) text.now)) out.old 0 out.new result }
    ensures signeds_after { lent words.new wides.new signeds.new ≡ left_in (lent words.old wides.old signeds.old) (outcome model (long_enough (lent words.old wides.old signeds.old)) (entry_of entry) text.now) }
{
    let read = outcome(entry, text, model, words, wides, signeds);
    let mut writer = Writer { buffer: out, at: 0 };
    put_outcome(&mut writer, text, model, words, wides, signeds, read);
    writer.at
}
