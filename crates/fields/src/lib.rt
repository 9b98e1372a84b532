#![tactic(auto)]
// Members of a body before it is laid out: they carry the mark of their list, and their place in the text.
ghost use Rattle.std.specs.Prelude.{◌≡◌, ◌≤◌};
ghost use Rattle.definition.specs.Limit.{max_members};
ghost use Rattle.definition.specs.Token.{Tokens};
ghost use Rattle.definition.specs.Model.{Model};
ghost use Rattle.definition.specs.Grammar.{Levels};
ghost use Rattle.definition.specs.Composite.{anonymous_member, is_composite};
ghost use Rattle.table.specs.Held.{Held};
ghost use Rattle.table.specs.Reply.{reply_alone, Moves};
ghost use Rattle.table.specs.Widths.{Storable};
ghost use Rattle.lemmas.specs.Options.{option};
ghost use Rattle.fields.specs.Fields.{field_pushed};

use encoding::names::NO_NAME;
use encoding::refusals::{Reason, Refusal};
use encoding::regions::OPEN_LIST;
use encoding::row_kinds::{STRUCT_KIND, UNION_KIND};
use named_rows::resolved_kind;
use table::{Cursor, push_member};

#[tactic(auto, unfolding(definition::specs::Composite::is_composite))]
fn is_composite(kind: u32) -> bool
    ensures { result ≡ is_composite kind }
{
    kind == STRUCT_KIND || kind == UNION_KIND
}

// The next member of the body whose first entry is `first`, with its width where it is a bit-field; `at` is its token.
pub fn push_field(
    w: &mut [u32],
    d: &mut [u64],
    v: &mut [i64],
    c: Cursor,
    first: u32,
    ty: u32,
    name: u32,
    width: Option<u32>,
    at: usize,
) -> Result<Cursor, Refusal>
    requires { Held c w.old d.old v.old × (first ≤ max_members) }
    ensures { Storable width → Moves (field_pushed first ty name (option width) at) c w.old d.old v.old (reply_alone result) w.new d.new v.new }
{
    let (e, _) = push_member(w, d, v, c, OPEN_LIST + first, ty, name, width, at as u64)?;
    Ok(e)
}

// An anonymous member is a struct or union.
pub fn anonymous_member(
    w: &mut [u32],
    d: &mut [u64],
    v: &mut [i64],
    c: Cursor,
    first: u32,
    b: u32,
    at: usize,
) -> Result<Cursor, Refusal>
    requires { Held c w.old d.old v.old × (first ≤ max_members) }
    ensures { (ts : Tokens) (m : Model) (next : Levels) → Moves (anonymous_member ts m next first b at) c w.old d.old v.old (reply_alone result) w.new d.new v.new }
{
    if !is_composite(resolved_kind(w, b)) {
        return Err(Refusal {
            reason: Reason::MissingName,
            at,
        });
    }
    push_field(w, d, v, c, first, b, NO_NAME, None, at)
}
