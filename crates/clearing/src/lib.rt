#![tactic(auto)]
// Lent slices of any length, cleared.
ghost use Rattle.std.specs.Prelude.{◌≡◌};
ghost use Rattle.definition.specs.Lent.{zeroed};
ghost use Rattle.clearing.specs.Slices.{lent};

// Zeros everywhere in the three lent slices.
#[tactic(auto, unfolding(definition::specs::Lent::zeroed))]
pub fn clear(w: &mut [u32], d: &mut [u64], v: &mut [i64])
    ensures { lent w.new d.new v.new ≡ zeroed (lent w.old d.old v.old) }
{
    w.fill(0);
    d.fill(0);
    v.fill(0);
}
