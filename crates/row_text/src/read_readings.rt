//! An input by its readings: its name, and numbers to the end of the line.

ghost use Rattle.std.specs.Prelude.{◌≡◌, length, IfOk};
ghost use Rattle.line_text.specs.Memory.{GivesBy};
ghost use Rattle.line_text.specs.Words.{words_left};
ghost use Rattle.type_a.specs.Tables.{table_of};
ghost use Rattle.type_a.specs.Tables.{single};
ghost use Rattle.sheet_rows.specs.Rows.{row_of};
ghost use Rattle.sheet_rows.specs.Regular.{IsRegular};
ghost use Rattle.row_text.specs.Readings.{numbers_of, readings_of_words};

use crate::parts::{number_of, read_plain};
use decimal18::Dec;
use line_text::{OutOfMemory, Words};
use sheet_rows::{Row, RowFault};
use std::alloc::Global;
use std::rc::Rc;
use type_a::Readings;

/// The numbers that the words are.
fn read_numbers(alloc: Global, mut words: Words<'_>) -> Result<Vec<Dec>, RowFault>
    ensures { GivesBy (λ numbers. numbers.items) RowFault.OutOfMemory result (numbers_of (words_left words.entry)) }
{
    let mut numbers = Vec::new(alloc);
    while let Some(word) = words.next() {
        let number = number_of(&word)?;
        let Ok(()) = numbers.push(number) else {
            return Err(RowFault::OutOfMemory);
        };
    }
    Ok(numbers)
}

/// The records of which each has one of the numbers.
fn records_of(alloc: Global, numbers: &[Dec]) -> Result<Vec<Vec<Dec>>, OutOfMemory>
    ensures { IfOk result (λ records. table_of records.items ≡ single numbers.now) }
{
    let mut records = Vec::with_capacity(alloc, numbers.len())?;
    for number in numbers {
        records.push(Vec::from_array(alloc, [*number])?)?;
    }
    Ok(records)
}

/// The readings, to be shared.
pub(crate) fn shared(alloc: Global, readings: Readings) -> Result<Rc<Readings>, OutOfMemory>
    ensures { IfOk result (λ shared. shared.value ≡ readings) }
{
    Ok(Rc::new(alloc, readings)?)
}

/// The input that the words after `readings` are.
pub fn read_readings(alloc: Global, mut words: Words<'_>) -> Result<Row, RowFault>
    ensures exact { GivesBy row_of RowFault.OutOfMemory result (readings_of_words (length words.entry.line) (words_left words.entry)) }
    ensures regular { IfOk result (λ row. IsRegular (row_of row)) }
{
    let name = read_plain(&mut words)?;
    let numbers = read_numbers(alloc, words)?;
    let records = records_of(alloc, numbers.as_slice())?;
    let readings = Readings::new(alloc, records.as_slice())?;
    let readings = shared(alloc, readings)?;
    Ok(Row::Readings { name, readings })
}
