ghost use Rattle.std.specs.Prelude.{◌≡◌, [], ◌∷◌, ◌++◌, map, Ok, OnOk, OnErr};
ghost use Rattle.covariance.specs.Groups.{group_of};

use crate::group::Group;
use line_text::OutOfMemory;
use std::alloc::Global;
use std::marker::Model;

/// A list of groups of inputs.
#[derive(Drop)]
pub struct GroupList {
    vec: Vec<Group>,
}

impl Model for GroupList {
    ghost use Rattle.std.specs.Prelude.{List, ℕ, map};
    ghost use Rattle.covariance.specs.Groups.{Group, group_of};

    ghost Value = { List (Group ℕ) };

    ghost view = { λ groups. map group_of groups.vec.items };
}

impl GroupList {
    /// The list without groups. It takes no memory yet, so this is always `Ok`.
    ///
    /// # Errors
    ///
    /// None: the result has the form of the other calls that take an allocator.
    pub fn new(alloc: Global) -> Result<GroupList, OutOfMemory>
        ensures { result ≡ Ok [] }
    {
        Ok(GroupList {
            vec: Vec::new(alloc),
        })
    }

    /// Puts `group` at the end.
    ///
    /// # Errors
    ///
    /// [`OutOfMemory`] where there is no memory for it; the list stays as it was.
    pub fn push(&mut self, group: Group) -> Result<(), OutOfMemory>
        ensures ok { OnOk result (self.new ≡ self.old ++ group_of group ∷ []) }
        ensures err { OnErr result (self.new ≡ self.old) }
    {
        self.vec.push(group)?;
        Ok(())
    }

    /// The groups in order.
    pub fn as_slice(&self) -> &[Group]
        ensures { map group_of result.now ≡ self.now }
    {
        self.vec.as_slice()
    }
}
