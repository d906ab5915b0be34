ghost use Rattle.std.specs.Prelude.{◌≡◌, true, map, option_map, None, IfOk, IfErr, IfSome, string_bytes};
ghost use Rattle.clap.specs.Words.{app_of, kind_of, subcommand_of, subcommand_rows_of, takes};
ghost use Rattle.program_words.specs.Words.{made_of, asked_of, IsInRange};
ghost use Rattle.program_words.specs.Grammar.{gumtree, options_found, confirmed, confirmed_by, confirmed_of};
ghost use Rattle.program_words.specs.Views.{texts_of, as_options};

use crate::asked::Asked;
use crate::number::number;
use crate::options::{Options, are_same, options_of};
use clap::error::ErrorKind;
use clap::{Arg, ArgMatches, Command, Error};
pub use std::alloc::AllocError as OutOfMemory;
use std::alloc::Global;

/// The most digits of a number of rows, the fewest rows and the most.
const ROW_DIGITS: usize = 4;

const FEWEST_ROWS: u32 = 2;

const MOST_ROWS: u32 = 4096;

/// The most digits of a start, and the greatest.
const START_DIGITS: usize = 10;

const GREATEST_START: u32 = 2_147_483_647;

/// The words as `clap` is told of them.
fn grammar<'a>(alloc: Global) -> Result<Command<'a>, OutOfMemory>
    ensures { IfOk result (λ command. app_of command ≡ gumtree) }
{
    let run = Command::new(alloc, "run");
    let rows = Arg::new(alloc, "rows").long("rows").required(true);
    let start = Arg::new(alloc, "start").long("start").required(true);
    let make = Command::new(alloc, "make").arg(rows)?.arg(start)?;
    Command::new(alloc, "gumtree")
        .disable_help_flag(true)
        .disable_help_subcommand(true)
        .disable_version_flag(true)
        .subcommand_required(true)
        .subcommand(run)?
        .subcommand(make)
}

/// What `clap` finds in the words.
fn parsed<'a>(alloc: Global, words: &'a [String]) -> Result<ArgMatches<'a>, Error>
    ensures taken { takes gumtree (texts_of words.now) ≡ true → IfErr result (λ e. kind_of e ≡ ErrorKind.OutOfMemory) }
    ensures matches { IfOk result (λ m. subcommand_rows_of m ≡ subcommand_of gumtree (texts_of words.now)) }
{
    grammar(alloc)?.try_get_matches_from(words)
}

/// The values of the options that were found.
fn options_found<'a>(matches: &ArgMatches<'a>) -> Option<Options<'a>>
    ensures { option_map as_options result ≡ options_found (subcommand_rows_of matches.now) }
{
    let (_, found) = matches.subcommand()?;
    let rows = found.get_str("rows")?;
    let start = found.get_str("start")?;
    Some(Options {
        rows: rows.as_bytes(),
        start: start.as_bytes(),
    })
}

/// The script that the options ask for.
fn made_of(options: &Options<'_>) -> Option<Asked>
    ensures { result ≡ made_of (as_options options.now) }
{
    let rows = number(options.rows, ROW_DIGITS, FEWEST_ROWS, MOST_ROWS)?;
    let start = number(options.start, START_DIGITS, 0, GREATEST_START)?;
    Some(Asked::Make { rows, start })
}

/// The script that options ask for which were found, if the words spell these and nothing else.
fn confirmed(found: Option<Options<'_>>, spelt: Option<Options<'_>>) -> Option<Asked>
    ensures { result ≡ confirmed (option_map as_options found.entry) (option_map as_options spelt.entry) }
{
    let found = found?;
    if are_same(&found, &spelt?) {
        made_of(&found)
    } else {
        None
    }
}

/// What a word and the words after it ask for, in which these options were found.
fn confirmed_by(found: Option<Options<'_>>, word: &str, options: &[String]) -> Option<Asked>
    ensures { result ≡ confirmed_by (option_map as_options found.entry) word.now (texts_of options.now) }
{
    if options.is_empty() {
        return if word == "run" {
            Some(Asked::Run)
        } else {
            None
        };
    }
    if word == "make" {
        confirmed(found, options_of(options))
    } else {
        None
    }
}

/// What the words ask for, in which these options were found.
fn confirmed_of(found: Option<Options<'_>>, words: &[String]) -> Option<Asked>
    ensures { result ≡ confirmed_of (option_map as_options found.entry) (texts_of words.now) }
{
    let [_, word, options @ ..] = words else {
        return None;
    };
    confirmed_by(found, word, options)
}

/// What words ask for of which `clap` says that they are wrong, or that it found no memory for them.
fn refused(error: &Error) -> Result<Option<Asked>, OutOfMemory>
    ensures { IfOk result (λ asked. (asked ≡ None) × (kind_of error.now ≡ ErrorKind.OutOfMemory → ⊥)) }
{
    if error.kind() == ErrorKind::OutOfMemory {
        Err(OutOfMemory)
    } else {
        Ok(None)
    }
}

/// What the program is asked to do by its words, of which the first is its own name: `run`; or `make`, followed by the
/// options `--rows N` and `--start S`, each once, in either order, as two words or as one with `=` in place of the blank.
/// N is a number from 2 to 4,096 in at most four digits, S one of at most 2,147,483,647 in at most ten. `None` where the
/// words are anything else.
///
/// # Errors
///
/// [`OutOfMemory`] where there is no memory to read them.
pub fn read_words(alloc: Global, words: &[String]) -> Result<Option<Asked>, OutOfMemory>
    ensures asked { IfOk result (λ asked. asked ≡ asked_of (map string_bytes words.now)) }
    ensures in_range { IfOk result (λ asked. IfSome asked IsInRange) }
{
    match parsed(alloc, words) {
        Ok(matches) => Ok(confirmed_of(options_found(&matches), words)),
        Err(error) => refused(&error),
    }
}
