ghost use Rattle.std.specs.Prelude.{◌≡◌, Some};
ghost use Rattle.value_cache.specs.Evaluations.{span_in, is_fault};

use fixed_interval::{ArithFault, Span};

/// The span of a quantity's value, or the fault that stands in its place. `K` is the type of the
/// quantities' keys.
#[derive(Clone, Copy, Debug)]
pub enum Evaluation<K> {
    /// The exact value lies in this span.
    Enclosed(Span),
    /// An operation in the formula of the quantity of this key has no span.
    Fault(ArithFault, K),
}

impl<K> Evaluation<K> {
    /// The span, where no fault stands in its place.
    pub fn span(&self) -> Option<Span>
        ensures { result ≡ span_in (Some self.now) }
    {
        match self {
            Evaluation::Enclosed(span) => Some(*span),
            Evaluation::Fault(..) => None,
        }
    }

    /// Whether a fault stands in the place of the span.
    pub fn is_fault(&self) -> bool
        ensures { result ≡ is_fault (Some self.now) }
    {
        match self {
            Evaluation::Enclosed(_) => false,
            Evaluation::Fault(..) => true,
        }
    }
}
