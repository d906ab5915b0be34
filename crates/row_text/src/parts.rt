//! Parts of a line that are one word.

ghost use Rattle.std.specs.Prelude.{◌≡◌, ◌<◌, ◌^◌, true, length, Ok, Err, IfOk, IfErr};
ghost use Rattle.decimal18.specs.Literal.{parsed};
ghost use Rattle.formula_ast.specs.Names.{is_plain_name, is_name};
ghost use Rattle.line_text.specs.Words.{word_of, words_left};
ghost use Rattle.row_text.specs.Parts.{plain_word, name_word, number_of, number_word, ended};

use decimal18::{Dec, NumFault, parse};
use formula_ast::Name;
use line_text::{Word, Words};
use sheet_rows::RowFault;

/// A plain name.
pub(crate) fn read_plain(words: &mut Words<'_>) -> Result<Name, RowFault>
    ensures ok { IfOk result (λ name. plain_word (length words.old.line) (words_left words.old)
        ≡ Ok (record { item = name; rest = words_left words.new })) }
    ensures err { IfErr result (λ fault. plain_word (length words.old.line) (words_left words.old) ≡ Err fault) }
    ensures line { words.new.line ≡ words.old.line }
    ensures plain { IfOk result (λ name. is_plain_name name ≡ true) }
{
    let Some(word) = words.next() else {
        return Err(RowFault::Syntax(words.end() + 1));
    };
    match Name::plain(word.text) {
        Some(name) => Ok(name),
        None => Err(RowFault::Syntax(word.place + 1)),
    }
}

/// A name, which may be that of a table's column.
pub(crate) fn read_name(words: &mut Words<'_>) -> Result<Name, RowFault>
    ensures ok { IfOk result (λ name. name_word (length words.old.line) (words_left words.old)
        ≡ Ok (record { item = name; rest = words_left words.new })) }
    ensures err { IfErr result (λ fault. name_word (length words.old.line) (words_left words.old) ≡ Err fault) }
    ensures line { words.new.line ≡ words.old.line }
    ensures name { IfOk result (λ name. is_name name ≡ true) }
{
    let Some(word) = words.next() else {
        return Err(RowFault::Syntax(words.end() + 1));
    };
    match Name::new(word.text) {
        Some(name) => Ok(name),
        None => Err(RowFault::Syntax(word.place + 1)),
    }
}

/// The number that the word is.
pub(crate) fn number_of(word: &Word<'_>) -> Result<Dec, RowFault>
    requires { word.now.place < 2 ^ 63 }
    ensures { result ≡ number_of (word_of word.now) (parsed word.now.text.now) }
{
    match parse(word.text) {
        Ok(number) => Ok(number),
        Err(NumFault::NotNumber) => Err(RowFault::NotNumber(word.place + 1)),
        Err(NumFault::NumberRange) => Err(RowFault::NumberRange(word.place + 1)),
    }
}

/// A number.
pub(crate) fn read_number(words: &mut Words<'_>) -> Result<Dec, RowFault>
    ensures ok { IfOk result (λ number. number_word (length words.old.line) (words_left words.old)
        ≡ Ok (record { item = number; rest = words_left words.new })) }
    ensures err { IfErr result (λ fault. number_word (length words.old.line) (words_left words.old) ≡ Err fault) }
    ensures line { words.new.line ≡ words.old.line }
{
    let Some(word) = words.next() else {
        return Err(RowFault::Syntax(words.end() + 1));
    };
    number_of(&word)
}

/// No word more.
pub(crate) fn read_end(words: &mut Words<'_>) -> Result<(), RowFault>
    ensures { result ≡ ended (words_left words.old) }
{
    match words.next() {
        None => Ok(()),
        Some(word) => Err(RowFault::Syntax(word.place + 1)),
    }
}
