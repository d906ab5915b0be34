ghost use Rattle.std.specs.Prelude.{◌≡◌};
ghost use Rattle.edit_session.specs.Asking.{answer_of_stop};

use answers::{Answer, AskFault};
use fixed_interval::{ArithFault, Overflow};
use formula_ast::Name;
use line_text::OutOfMemory;

/// What stands in the place of what a query asks for.
#[derive(Clone, Copy, Debug)]
pub(crate) enum Stop {
    /// The quantity has no interval: this fault arose in the row of this name.
    Value(ArithFault, Name),
    /// An operation that the law of propagation asks for leaves the range of bounds.
    Law,
    /// There was no memory.
    OutOfMemory,
}

impl Stop {
    /// What is answered then.
    ///
    /// # Errors
    ///
    /// [`AskFault::OutOfMemory`] where there was no memory.
    pub(crate) fn answer(self) -> Result<Answer, AskFault>
        ensures { result ≡ answer_of_stop self }
    {
        match self {
            Stop::Value(fault, row) => Ok(Answer::ValueFault(fault, row)),
            Stop::Law => Ok(Answer::LawOverflow),
            Stop::OutOfMemory => Err(AskFault::OutOfMemory),
        }
    }
}

impl From<OutOfMemory> for Stop {
    ghost use Rattle.std.specs.Prelude.{◌≡◌};
    ghost use Rattle.edit_session.specs.declared.stop.Stop.{Stop};

    ghost from_gives = { λ _ stop. stop ≡ Stop.OutOfMemory };

    fn from(_: OutOfMemory) -> Stop {
        Stop::OutOfMemory
    }
}

impl From<Overflow> for Stop {
    ghost use Rattle.std.specs.Prelude.{◌≡◌};
    ghost use Rattle.edit_session.specs.declared.stop.Stop.{Stop};

    ghost from_gives = { λ _ stop. stop ≡ Stop.Law };

    fn from(_: Overflow) -> Stop {
        Stop::Law
    }
}
