ghost use Rattle.std.specs.Prelude.{◌≡◌, [], ◌∷◌, ◌++◌, Ok, OnOk, OnErr};

use budget_table::{BudgetInput, GroupPart};
use line_text::OutOfMemory;
use std::alloc::Global;
use std::marker::Model;

/// The inputs of a budget.
#[derive(Drop)]
pub(crate) struct InputList {
    vec: Vec<BudgetInput>,
}

impl Model for InputList {
    ghost use Rattle.std.specs.Prelude.{List};
    ghost use Rattle.budget_table.specs.declared.part.BudgetInput.{BudgetInput};

    ghost Value = { List BudgetInput };

    ghost view = { λ inputs. inputs.vec.items };
}

impl InputList {
    /// No inputs. It takes no memory yet, so this is always `Ok`.
    ///
    /// # Errors
    ///
    /// None: the result has the form of the other calls that take an allocator.
    pub(crate) fn new(alloc: Global) -> Result<InputList, OutOfMemory>
        ensures { result ≡ Ok [] }
    {
        Ok(InputList {
            vec: Vec::new(alloc),
        })
    }

    /// Puts an input at the end.
    ///
    /// # Errors
    ///
    /// [`OutOfMemory`] where there is no memory for it; the list stays as it was.
    pub(crate) fn push(&mut self, input: BudgetInput) -> Result<(), OutOfMemory>
        ensures ok { OnOk result (self.new ≡ self.old ++ input ∷ []) }
        ensures err { OnErr result (self.new ≡ self.old) }
    {
        self.vec.push(input)?;
        Ok(())
    }

    /// The inputs in order.
    pub(crate) fn as_slice(&self) -> &[BudgetInput]
        ensures { result.now ≡ self.now }
    {
        self.vec.as_slice()
    }
}

/// The groups of a budget.
#[derive(Drop)]
pub(crate) struct PartList {
    vec: Vec<GroupPart>,
}

impl Model for PartList {
    ghost use Rattle.std.specs.Prelude.{List};
    ghost use Rattle.budget_table.specs.declared.part.GroupPart.{GroupPart};

    ghost Value = { List GroupPart };

    ghost view = { λ parts. parts.vec.items };
}

impl PartList {
    /// No groups. It takes no memory yet, so this is always `Ok`.
    ///
    /// # Errors
    ///
    /// None: the result has the form of the other calls that take an allocator.
    pub(crate) fn new(alloc: Global) -> Result<PartList, OutOfMemory>
        ensures { result ≡ Ok [] }
    {
        Ok(PartList {
            vec: Vec::new(alloc),
        })
    }

    /// Puts a group at the end.
    ///
    /// # Errors
    ///
    /// [`OutOfMemory`] where there is no memory for it; the list stays as it was.
    pub(crate) fn push(&mut self, part: GroupPart) -> Result<(), OutOfMemory>
        ensures ok { OnOk result (self.new ≡ self.old ++ part ∷ []) }
        ensures err { OnErr result (self.new ≡ self.old) }
    {
        self.vec.push(part)?;
        Ok(())
    }

    /// The groups in order.
    pub(crate) fn as_slice(&self) -> &[GroupPart]
        ensures { result.now ≡ self.now }
    {
        self.vec.as_slice()
    }
}
