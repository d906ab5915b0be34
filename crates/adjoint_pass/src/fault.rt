use dep_graph::Id;
use fixed_interval::ArithFault;
use line_text::OutOfMemory;

/// Why the sensitivities of a quantity are not found.
#[derive(Clone, Copy, Debug)]
pub enum GradFault {
    /// The quantity has no span, but this fault, which arose in the row of the quantity of this number.
    Value(ArithFault, Id),
    /// An operation for a sensitivity leaves the range of bounds.
    Law,
    /// There was no memory for them.
    OutOfMemory,
}

impl From<OutOfMemory> for GradFault {
    ghost use Rattle.std.specs.Prelude.{◌≡◌};
    ghost use Rattle.adjoint_pass.specs.declared.fault.GradFault.{GradFault};

    ghost from_gives = { λ _ fault. fault ≡ GradFault.OutOfMemory };

    fn from(_: OutOfMemory) -> GradFault {
        GradFault::OutOfMemory
    }
}
