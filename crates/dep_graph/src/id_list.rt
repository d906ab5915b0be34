ghost use Rattle.std.specs.Prelude.{◌≡◌, [], ◌∷◌, ◌++◌, Ok, OnOk, OnErr, reverse};

use crate::id::Id;
use line_text::OutOfMemory;
use std::alloc::Global;
use std::marker::Model;

/// A list of numbers of quantities.
#[derive(Drop, Debug)]
pub struct IdList {
    vec: Vec<Id>,
}

impl Model for IdList {
    ghost use Rattle.std.specs.Prelude.{List, ℕ};

    ghost Value = { List ℕ };

    ghost view = { λ ids. ids.vec.items };
}

impl IdList {
    /// The list without numbers. It takes no memory yet, so this is always `Ok`.
    ///
    /// # Errors
    ///
    /// None: the result has the form of the other calls that take an allocator.
    pub fn new(alloc: Global) -> Result<IdList, OutOfMemory>
        ensures { result ≡ Ok [] }
    {
        Ok(IdList {
            vec: Vec::new(alloc),
        })
    }

    /// Puts `id` at the end.
    ///
    /// # Errors
    ///
    /// [`OutOfMemory`] where there is no memory for it; the list stays as it was.
    pub fn push(&mut self, id: Id) -> Result<(), OutOfMemory>
        ensures ok { OnOk result (self.new ≡ self.old ++ id ∷ []) }
        ensures err { OnErr result (self.new ≡ self.old) }
    {
        self.vec.push(id)?;
        Ok(())
    }

    /// The numbers in order.
    pub fn as_slice(&self) -> &[Id]
        ensures { result.now ≡ self.now }
    {
        self.vec.as_slice()
    }

    // Turns the list round.
    pub(crate) fn reverse(&mut self)
        ensures { self.new ≡ reverse self.old }
    {
        self.vec.reverse();
    }
}
