//! How the program ends: its exit status, and what it says on standard error.

ghost use Rattle.std.specs.Prelude.{◌≡◌, ◌↔◌, option_map};
ghost use Rattle.gum_cli.specs.Exit.{exit_code_of, message_of};

use crate::run::Status;

/// How the program ends.
#[derive(Clone, Copy, Debug, PartialEq, Eq)]
pub enum Ending {
    /// The end of a run.
    Ran(Status),
    /// The words of the command line cannot be had, so that there was no run.
    NoWords,
}

impl Ending {
    /// The exit status.
    pub fn exit_code(self) -> u8
        ensures code { result ≡ exit_code_of self }
        ensures success { (result ≡ 0) ↔ (self ≡ Ending.Ran Status.Done) }
    {
        match self {
            Ending::Ran(Status::Done) => 0,
            Ending::Ran(Status::Usage) => 2,
            Ending::Ran(Status::ReadFault) => 3,
            Ending::Ran(Status::WriteFault) => 4,
            Ending::Ran(Status::InputLimit) => 5,
            Ending::Ran(Status::OutOfMemory) => 6,
            Ending::NoWords => 7,
        }
    }

    /// The line that says on standard error why no run was done.
    pub fn message(self) -> Option<&'static str>
        ensures { option_map (λ text. text.now) result ≡ message_of self }
    {
        match self {
            Ending::Ran(Status::Done) => None,
            Ending::Ran(Status::Usage) => Some("usage: gumtree run | make --rows N --start S"),
            Ending::Ran(Status::ReadFault) => Some("read fault"),
            Ending::Ran(Status::WriteFault) => Some("write fault"),
            Ending::Ran(Status::InputLimit) => Some("input too long"),
            Ending::Ran(Status::OutOfMemory) => Some("out of memory"),
            Ending::NoWords => Some("no words"),
        }
    }
}
