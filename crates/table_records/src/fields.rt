//! The records of a text, and the fields of a record.

ghost use Rattle.std.specs.Prelude.{◌≡◌, ◌<◌, ◌≤◌, [], length, drop, map, get_or, IfOk};
ghost use Rattle.csv.specs.Records.{fields_of};
ghost use Rattle.table_records.specs.Records.{records_of, trimmed};

use csv::{ByteRecord, ReaderBuilder};
use line_text::{OutOfMemory, skip_blanks, written_len};
use std::alloc::{AllocError, Global};

/// The records of the text.
pub fn records_of(alloc: Global, block: &[u8]) -> Result<Vec<ByteRecord>, OutOfMemory>
    ensures { IfOk result (λ records. map fields_of records.items ≡ records_of block.now) }
{
    let reader = ReaderBuilder::new()
        .has_headers(false)
        .flexible(true)
        .from_reader(alloc, block);
    let mut records = Vec::new(alloc);
    for record in reader.into_byte_records() {
        // a text in memory has no faults, and records of any length are taken, so an error is out of memory
        let Ok(record) = record else {
            return Err(AllocError);
        };
        if records.push(record).is_err() {
            return Err(AllocError);
        }
    }
    Ok(records)
}

/// The field without the blanks at its ends.
fn trimmed(field: &[u8]) -> &[u8]
    ensures { result.now ≡ trimmed field.now }
{
    let rest = skip_blanks(field);
    &rest[..written_len(rest)]
}

/// What is written in this field of the record.
pub fn field_at(fields: &ByteRecord, i: usize) -> &[u8]
    requires { i < length (fields_of fields.now) }
    ensures { result.now ≡ trimmed (get_or (fields_of fields.now) i []) }
{
    match fields.get(i) {
        Some(field) => trimmed(field),
        None => unreachable!(),
    }
}
