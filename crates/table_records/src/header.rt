//! The names of the columns.

ghost use Rattle.std.specs.Prelude.{◌≡◌, Some, None, Ok, Err, map, if◌then◌else◌};
ghost use Rattle.std.specs.List.{list_all};
ghost use Rattle.csv.specs.Records.{fields_of};
ghost use Rattle.line_text.specs.Memory.{Gives};
ghost use Rattle.formula_ast.specs.NewNames.{has};
ghost use Rattle.table_records.specs.declared.fault.RecordsFault.TheVariants.{Shape, OutOfMemory};
ghost use Rattle.table_records.specs.Records.{trimmed};
ghost use Rattle.table_records.specs.Header.{is_column, are_distinct};
ghost use Rattle.table_records.specs.Tables.{names_of};

use crate::fault::RecordsFault;
use crate::fields::field_at;
use csv::ByteRecord;
use formula_ast::{Name, NameList};
use std::alloc::Global;

/// The most columns of a table.
const MOST_COLUMNS: usize = 8;

/// The name of the column, and `None` where the text is none.
fn column(text: &[u8]) -> Option<Name>
    ensures { result ≡ (if is_column text.now then Some text.now else None) }
{
    if text == b"end".as_slice() {
        return None;
    }
    Name::plain(text)
}

/// Whether the name is in the list.
fn contains(names: &[Name], name: &Name) -> bool
    ensures { result ≡ has names.now name.now }
{
    for other in names {
        if other == name {
            return true;
        }
    }
    false
}

/// Whether no name stands twice.
fn are_distinct(names: &[Name]) -> bool
    ensures { result ≡ are_distinct names.now }
{
    for (i, name) in names.iter().enumerate() {
        if contains(&names[i + 1..], name) {
            return false;
        }
    }
    true
}

/// The fields, where each is the name of a column.
fn columns_in(alloc: Global, header: &ByteRecord) -> Result<NameList, RecordsFault>
    ensures { Gives OutOfMemory result (if list_all is_column (map trimmed (fields_of header.now)) then Ok (map trimmed (fields_of header.now)) else Err (Shape 1)) }
{
    let mut columns = NameList::new(alloc)?;
    for i in 0..header.len() {
        let Some(name) = column(field_at(header, i)) else {
            return Err(RecordsFault::Shape(1));
        };
        columns.push(name)?;
    }
    Ok(columns)
}

/// The names of the header's columns.
pub fn names_of(alloc: Global, header: &ByteRecord) -> Result<NameList, RecordsFault>
    ensures { Gives OutOfMemory result (names_of (fields_of header.now)) }
{
    if header.is_empty() || header.len() > MOST_COLUMNS {
        return Err(RecordsFault::Shape(1));
    }
    let columns = columns_in(alloc, header)?;
    if !are_distinct(columns.as_slice()) {
        return Err(RecordsFault::Shape(1));
    }
    Ok(columns)
}
