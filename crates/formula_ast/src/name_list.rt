ghost use Rattle.std.specs.Prelude.{◌≡◌, [], ◌∷◌, ◌++◌, Ok, OnOk, OnErr};

use crate::name::Name;
use line_text::OutOfMemory;
use std::alloc::Global;
use std::marker::Model;

/// A list of names.
#[derive(Drop, Debug)]
pub struct NameList {
    vec: Vec<Name>,
}

impl Model for NameList {
    ghost use Rattle.std.specs.Prelude.{List, ℕ};

    ghost Value = { List (List ℕ) };

    ghost view = { λ names. names.vec.items };
}

impl NameList {
    /// The list without names. It takes no memory yet, so this is always `Ok`.
    ///
    /// # Errors
    ///
    /// None: the result has the form of the other calls that take an allocator.
    pub fn new(alloc: Global) -> Result<NameList, OutOfMemory>
        ensures { result ≡ Ok [] }
    {
        Ok(NameList {
            vec: Vec::new(alloc),
        })
    }

    /// Puts `name` at the end.
    ///
    /// # Errors
    ///
    /// [`OutOfMemory`] where there is no memory for it; the list stays as it was.
    pub fn push(&mut self, name: Name) -> Result<(), OutOfMemory>
        ensures ok { OnOk result (self.new ≡ self.old ++ name ∷ []) }
        ensures err { OnErr result (self.new ≡ self.old) }
    {
        self.vec.push(name)?;
        Ok(())
    }

    /// The names in order.
    pub fn as_slice(&self) -> &[Name]
        ensures { result.now ≡ self.now }
    {
        self.vec.as_slice()
    }
}
