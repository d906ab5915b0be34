//! The program `gumtree`: it reads a script of commands from standard input and writes one reply for
//! each to standard output, or writes a generated script there.
#![tactic(auto)]

mod exit;
mod laws;
#[cfg(test)]
mod limit_tests;
#[cfg(test)]
mod make_tests;
mod respond;
mod run;
#[cfg(test)]
mod run_tests;
mod serve;
#[cfg(test)]
mod tests;
mod worked;

ghost use Rattle.std.specs.Prelude.{◌≡◌, ◌⊎◌, None};
ghost use Rattle.std.specs.Process.{exit_status};
ghost use Rattle.gum_cli.specs.Exit.{exit_code_of};
ghost use Rattle.gum_cli.specs.Run.{asked};

use crate::exit::Ending;
use crate::run::{Status, run};
use byte_io::{StdSink, StdSource};
use fixed_interval::Steps;
use std::env;
use std::io::{self, Eprint, ErrorKind};
use std::marker::Brand;
use std::process::ExitCode;
use std::sync::ledger::{Blank, Ledger};

fn main(rt: HostRuntime) -> ExitCode {
    let args = match env::args(&rt) {
        Ok(args) => args,
        Err(error) if error.kind() == ErrorKind::OutOfMemory => {
            return end(&rt, Ending::Ran(Status::OutOfMemory));
        }
        Err(_) => return end(&rt, Ending::NoWords),
    };
    let Ok(words) = args.collect::<Vec<String>>(rt.alloc()) else {
        return end(&rt, Ending::Ran(Status::OutOfMemory));
    };
    let status = start::<Brand>(&rt, &words, Blank::new(1));
    end(&rt, Ending::Ran(status))
}

// Does what the words ask for on the standard streams, with a counter for the ledger that `blank` stands for.
fn start<L: Ledger>(rt: &HostRuntime, words: &Vec<String>, blank: Blank) -> Status
    requires name { blank.name ≡ L.name }
    requires parts { blank.parts ≡ L.parts }
    requires one { L.parts ≡ 1 }
    ensures usage { result ≡ Status.Usage → asked words.now.items ≡ None }
    ensures refused { asked words.now.items ≡ None → (result ≡ Status.Usage) ⊎ (result ≡ Status.OutOfMemory) }
{
    let mut source = StdSource::new(rt.reader());
    let mut sink = StdSink::new(io::writer(rt));
    let mut steps = Steps::<L>::new(blank);
    run(rt.alloc(), words, &mut source, &mut sink, &mut steps)
}

// Says on standard error why no run was done, and answers the exit status.
fn end(rt: &impl Eprint, ending: Ending) -> ExitCode
    ensures { exit_status result ≡ exit_code_of ending }
{
    if let Some(text) = ending.message() {
        let _ = rt.eprintln(text);
    }
    ExitCode::from(ending.exit_code())
}
