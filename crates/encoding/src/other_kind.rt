// The kinds that the definition has no name for.
ghost use Rattle.std.specs.Prelude.{◌<◌};
ghost use Rattle.definition.specs.Kind.{dot};

// A number past the last named kind's.
#[derive(Clone, Copy)]
pub struct OtherKind {
    pub number: u32,
    ghost past: { dot < number },
}
