ghost use Rattle.std.specs.Prelude.{◌≡◌, ℕ, [], Ok, is_some, nat_eq, if◌then◌else◌, Some, OnOk, OnErr};
ghost use Rattle.covariance.specs.Gradients.{found_at, sensitivity};

use dep_graph::Id;
use fixed_interval::{Span, zero};
use indexmap::IndexMap;
use line_text::OutOfMemory;
use std::alloc::Global;
use std::marker::Model;

/// The sensitivities of a quantity to others, the partial derivatives of JCGM 100:2008, 5.1.3, as spans, by the
/// numbers of those others.
#[derive(Drop)]
pub struct Gradient {
    spans: IndexMap<Id, Span>,
}

impl Model for Gradient {
    ghost use Rattle.covariance.specs.Gradients.{Gradient};

    ghost Value = { Gradient };

    ghost view = { λ gradient. gradient.spans.entries };
}

impl Gradient {
    /// The gradient without sensitivities. It takes no memory yet, so this is always `Ok`.
    ///
    /// # Errors
    ///
    /// None: the result has the form of the other calls that take an allocator.
    pub fn new(alloc: Global) -> Result<Gradient, OutOfMemory>
        ensures { result ≡ Ok [] }
    {
        Ok(Gradient {
            spans: IndexMap::new(alloc),
        })
    }

    /// Gives the sensitivity to a quantity this span, in place of the one that it had.
    ///
    /// # Errors
    ///
    /// [`OutOfMemory`] where there is no memory for it; the gradient stays as it was.
    pub fn put(&mut self, id: Id, a: Span) -> Result<(), OutOfMemory>
        ensures ok { OnOk result ((n : ℕ) → found_at self.new n ≡ (if nat_eq n id then Some a else found_at self.old n)) }
        ensures err { OnErr result (self.new ≡ self.old) }
    {
        self.spans.insert(id, a)?;
        Ok(())
    }

    /// Whether there is a sensitivity to the quantity.
    pub fn has(&self, id: Id) -> bool
        ensures { result ≡ is_some (found_at self.now id) }
    {
        self.spans.contains_key(&id)
    }

    /// The sensitivity to the quantity, and the point 0 where there is none. It does not tick.
    pub fn at(&self, id: Id) -> Span
        ensures { result ≡ sensitivity (found_at self.now) id }
    {
        self.spans.get(&id).copied().unwrap_or(zero())
    }
}
