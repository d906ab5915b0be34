//! The rows of numbers below the header.

ghost use Rattle.std.specs.Prelude.{◌≡◌, map};
ghost use Rattle.csv.specs.Records.{fields_of};
ghost use Rattle.line_text.specs.Memory.{GivesBy};
ghost use Rattle.decimal18.specs.Literal.{parsed};
ghost use Rattle.table_records.specs.declared.fault.RecordsFault.TheVariants.{OutOfMemory};
ghost use Rattle.table_records.specs.Tables.{number_in, numbers_of, row_of, rows_of, rows_in};

use crate::fault::RecordsFault;
use crate::fields::field_at;
use csv::ByteRecord;
use decimal18::{Dec, NumFault, parse};
use std::alloc::Global;

/// The number that a field of the record at the place `k` is.
fn number_in(k: usize, field: &[u8]) -> Result<Dec, RecordsFault>
    ensures { result ≡ number_in k (parsed field.now) }
{
    match parse(field) {
        Ok(number) => Ok(number),
        Err(NumFault::NotNumber) => Err(RecordsFault::NotNumber(k)),
        Err(NumFault::NumberRange) => Err(RecordsFault::NumberRange(k)),
    }
}

/// The numbers of the record at the place `k`.
#[tactic(auto, using(crate::proofs::RowSteps::one_more))]
fn numbers_of(alloc: Global, k: usize, fields: &ByteRecord) -> Result<Vec<Dec>, RecordsFault>
    ensures { GivesBy (λ numbers. numbers.items) OutOfMemory result (numbers_of k (fields_of fields.now)) }
{
    let mut numbers = Vec::with_capacity(alloc, fields.len())?;
    for i in 0..fields.len() {
        let number = number_in(k, field_at(fields, i))?;
        if numbers.push(number).is_err() {
            return Err(RecordsFault::OutOfMemory);
        }
    }
    Ok(numbers)
}

/// The row of `width` numbers that the record at the place `k` is.
fn row_of(
    alloc: Global,
    width: usize,
    k: usize,
    fields: &ByteRecord,
) -> Result<Vec<Dec>, RecordsFault>
    ensures { GivesBy (λ row. row.items) OutOfMemory result (row_of width k (fields_of fields.now)) }
{
    if fields.len() != width {
        return Err(RecordsFault::Shape(k));
    }
    numbers_of(alloc, k, fields)
}

/// The rows of `width` numbers that the records below the header are.
#[tactic(auto, using(crate::proofs::RowSteps::one_more))]
pub fn rows_of(
    alloc: Global,
    width: usize,
    below: &[ByteRecord],
) -> Result<Vec<Vec<Dec>>, RecordsFault>
    ensures { GivesBy (λ rows. rows_in rows.items) OutOfMemory result (rows_of width 2 (map fields_of below.now)) }
{
    let mut rows = Vec::with_capacity(alloc, below.len())?;
    for (i, fields) in below.iter().enumerate() {
        let row = row_of(alloc, width, i + 2, fields)?;
        if rows.push(row).is_err() {
            return Err(RecordsFault::OutOfMemory);
        }
    }
    Ok(rows)
}
