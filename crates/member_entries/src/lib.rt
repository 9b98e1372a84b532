#![tactic(auto)]
// The end of a member's declarator, and the end of a body: the parts of reading members that read no specifiers and no declarators.
ghost use Rattle.std.specs.Prelude.{◌≡◌, ◌≤◌, length};
ghost use Rattle.encoding.specs.Kinds.{kind_numbers};
ghost use Rattle.definition.specs.Limit.{max_members};
ghost use Rattle.definition.specs.Model.{Model as MeantModel};
ghost use Rattle.definition.specs.Reader.{levels};
ghost use Rattle.definition.specs.Region.{words_length, wides_length};
ghost use Rattle.constants.specs.Reading.{tokens};
ghost use Rattle.table.specs.Held.{Held, Room};
ghost use Rattle.table.specs.Reply.{reply_alone, reply_by, Moves};
ghost use Rattle.model.specs.Meaning.{model};
ghost use Rattle.member_entries.specs.Pieces.{field, closed};
ghost use Rattle.member_entries.specs.Ended.{laid, Closes};

use bounds_widths::bit_width;
use encoding::names::NO_NAME;
use encoding::refusals::{Reason, Refusal};
use encoding::span::Span;
use encoding::token_kinds::TokenKind;
use fields::push_field;
use layout::layout;
use model::Model;
use open_lists::{field_count, fields_only};
use table::{Answer, Cursor};

// A body that was laid out: its size, and where its fields stand.
#[derive(Clone, Copy)]
pub struct Body {
    pub size: u64,
    pub fields: Span,
}

// A member of a type, with its width. `unnamed` where a bit-field stands without a declarator: every other member has a name.
pub fn field(
    kinds: &[TokenKind],
    numbers: &[u64],
    w: &mut [u32],
    d: &mut [u64],
    v: &mut [i64],
    c: Cursor,
    first: u32,
    ty: u32,
    name: u32,
    unnamed: bool,
    at: usize,
    room: u32,
) -> Result<Cursor, Refusal>
    requires { Held c w.old d.old v.old × (first ≤ max_members) }
    ensures { (m : MeantModel) → Moves (field (tokens (kind_numbers kinds.now) numbers.now) m (levels (tokens (kind_numbers kinds.now) numbers.now) m room) unnamed first ty name at) c w.old d.old v.old (reply_alone result) w.new d.new v.new }
{
    // It has a name, so that the proof speaks of this answer itself.
    let read = bit_width(kinds, numbers, w, v, c, at, room);
    let (e, width) = read?;
    if !unnamed && name == NO_NAME {
        return Err(Refusal {
            reason: Reason::MissingName,
            at,
        });
    }
    push_field(w, d, v, e, first, ty, name, width, at)
}

// The members are laid out; those of width 0 are no fields, and are not counted. `at` is the tag's place.
pub fn close_body(
    w: &mut [u32],
    d: &mut [u64],
    c: Cursor,
    m: Model,
    union: bool,
    first: u32,
    at: usize,
) -> Answer<Body>
    requires { (length w.old ≡ words_length) × (length d.old ≡ wides_length) × Room c }
    ensures { Closes (closed (model m) union first at) c w.old d.old (reply_by laid result) w.new d.new }
{
    let size = layout(m, w, d, c, union, first, at)?;
    fields_only(w, c, first);
    let count = field_count(w, c, first);
    let fields = Span { first, count };
    Ok((c, Body { size, fields }))
}
