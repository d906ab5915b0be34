//! The words after the first of a line, which has no comment and no last blanks. Each part takes its words, and
//! nothing may stand after it.

ghost use Rattle.std.specs.Prelude.{◌≡◌, length, Ok, Err, IfOk, IfErr};
ghost use Rattle.line_text.specs.Words.{words_left};
ghost use Rattle.script_lines.specs.Parts.{alone, any_word, name_word, plain_word, sole_name};
ghost use Rattle.script_lines.specs.Queries.{one_name, two_names, level_of, sole_level, name_and_level, decision_asked, query_with, query_of, query_at};

use crate::verb::{QueryWord, query_word};
use answers::{LineFault, Query};
use formula_ast::Name;
use line_text::Words;
use table_g2::Level;

/// The item, where no word stands after it.
pub(crate) fn alone<T: Copy>(item: T, mut words: Words<'_>) -> Result<T, LineFault>
    ensures { result ≡ alone item (words_left words.entry) }
{
    match words.next() {
        Some(word) => Err(LineFault::Syntax(word.place + 1)),
        None => Ok(item),
    }
}

/// A name without a point.
fn next_plain(words: &mut Words<'_>) -> Result<Name, LineFault>
    ensures ok { IfOk result (λ name. plain_word (length words.old.line) (words_left words.old)
        ≡ Ok (record { item = name; rest = words_left words.new })) }
    ensures err { IfErr result (λ fault. plain_word (length words.old.line) (words_left words.old) ≡ Err fault) }
    ensures line { words.new.line ≡ words.old.line }
{
    let Some(word) = words.next() else {
        return Err(LineFault::Syntax(words.end() + 1));
    };
    match Name::plain(word.text) {
        Some(name) => Ok(name),
        None => Err(LineFault::Syntax(word.place + 1)),
    }
}

/// A name without a point, and no word more.
pub(crate) fn read_name(mut words: Words<'_>) -> Result<Name, LineFault>
    ensures { result ≡ sole_name (length words.entry.line) (words_left words.entry) }
{
    let name = next_plain(&mut words)?;
    alone(name, words)
}

/// A name, which may be that of a table's column.
fn next_name(words: &mut Words<'_>) -> Result<Name, LineFault>
    ensures ok { IfOk result (λ name. name_word (length words.old.line) (words_left words.old)
        ≡ Ok (record { item = name; rest = words_left words.new })) }
    ensures err { IfErr result (λ fault. name_word (length words.old.line) (words_left words.old) ≡ Err fault) }
    ensures line { words.new.line ≡ words.old.line }
{
    let Some(word) = words.next() else {
        return Err(LineFault::Syntax(words.end() + 1));
    };
    match Name::new(word.text) {
        Some(name) => Ok(name),
        None => Err(LineFault::Syntax(word.place + 1)),
    }
}

/// The name of a quantity, and no word more.
fn read_one_name(mut words: Words<'_>) -> Result<Name, LineFault>
    ensures { result ≡ one_name (length words.entry.line) (words_left words.entry) }
{
    let name = next_name(&mut words)?;
    alone(name, words)
}

/// The names of two quantities, or of a quantity and an input, and no word more.
fn read_two_names(mut words: Words<'_>) -> Result<(Name, Name), LineFault>
    ensures { result ≡ two_names (length words.entry.line) (words_left words.entry) }
{
    let first = next_name(&mut words)?;
    let second = next_name(&mut words)?;
    alone((first, second), words)
}

/// The level of confidence that the word says, in percent.
fn level_of(word: &[u8]) -> Option<Level>
    ensures { result ≡ level_of word.now }
{
    match word {
        b"95" => Some(Level::L95),
        b"95.45" => Some(Level::L9545),
        b"99" => Some(Level::L99),
        _ => None,
    }
}

/// What the next word, which may be any, says of a level.
fn next_level(words: &mut Words<'_>) -> Result<Option<Level>, LineFault>
    ensures ok { IfOk result (λ level. any_word level_of (length words.old.line) (words_left words.old)
        ≡ Ok (record { item = level; rest = words_left words.new })) }
    ensures err { IfErr result (λ fault. any_word level_of (length words.old.line) (words_left words.old) ≡ Err fault) }
    ensures line { words.new.line ≡ words.old.line }
{
    match words.next() {
        Some(word) => Ok(level_of(word.text)),
        None => Err(LineFault::Syntax(words.end() + 1)),
    }
}

/// A level, and no word more. A word that says no level is refused last.
fn read_level(mut words: Words<'_>) -> Result<Level, LineFault>
    ensures { result ≡ sole_level (length words.entry.line) (words_left words.entry) }
{
    let said = next_level(&mut words)?;
    alone((), words)?;
    match said {
        Some(level) => Ok(level),
        None => Err(LineFault::Level),
    }
}

/// The name of a quantity and a level, and no word more.
fn read_name_and_level(mut words: Words<'_>) -> Result<(Name, Level), LineFault>
    ensures { result ≡ name_and_level (length words.entry.line) (words_left words.entry) }
{
    let name = next_name(&mut words)?;
    let level = read_level(words)?;
    Ok((name, level))
}

/// The question for a statement of conformity: the name of a quantity, that of a rule and a level, and no word more.
fn read_decision_asked(mut words: Words<'_>) -> Result<Query, LineFault>
    ensures { result ≡ decision_asked (length words.entry.line) (words_left words.entry) }
{
    let name = next_name(&mut words)?;
    let rule = next_plain(&mut words)?;
    let level = read_level(words)?;
    Ok(Query::Decide(name, rule, level))
}

/// The query for this, of the words after the one that begins it.
pub(crate) fn read_query_with(asked: QueryWord, words: Words<'_>) -> Result<Query, LineFault>
    ensures { result ≡ query_with asked (length words.entry.line) (words_left words.entry) }
{
    match asked {
        QueryWord::Value => Ok(Query::Value(read_one_name(words)?)),
        QueryWord::Variance => Ok(Query::Variance(read_one_name(words)?)),
        QueryWord::Covariance => {
            let (first, second) = read_two_names(words)?;
            Ok(Query::Covariance(first, second))
        }
        QueryWord::Correlation => {
            let (first, second) = read_two_names(words)?;
            Ok(Query::Correlation(first, second))
        }
        QueryWord::Sensitivity => {
            let (name, input) = read_two_names(words)?;
            Ok(Query::Sensitivity(name, input))
        }
        QueryWord::Degrees => Ok(Query::Degrees(read_one_name(words)?)),
        QueryWord::Report => Ok(Query::Report(read_one_name(words)?)),
        QueryWord::Expanded => {
            let (name, level) = read_name_and_level(words)?;
            Ok(Query::Expanded(name, level))
        }
        QueryWord::Decide => read_decision_asked(words),
        QueryWord::Budget => Ok(Query::Budget(read_one_name(words)?)),
        QueryWord::Dump => alone(Query::Dump, words),
    }
}

/// A query.
fn read_query(mut words: Words<'_>) -> Result<Query, LineFault>
    ensures { result ≡ query_of (length words.entry.line) (words_left words.entry) }
{
    let Some(first) = words.next() else {
        return Err(LineFault::Syntax(words.end() + 1));
    };
    match query_word(first.text) {
        Some(asked) => read_query_with(asked, words),
        None => Err(LineFault::Syntax(first.place + 1)),
    }
}

/// The name of a mark, and a query.
pub(crate) fn read_query_at(mut words: Words<'_>) -> Result<(Name, Query), LineFault>
    ensures { result ≡ query_at (length words.entry.line) (words_left words.entry) }
{
    let mark = next_plain(&mut words)?;
    let query = read_query(words)?;
    Ok((mark, query))
}
