//! The text of inputs by joint readings.

ghost use Rattle.std.specs.Prelude.{◌≡◌, ◌<◌, ◌++◌, [], codes, length, get_or, None, OnOk};
ghost use Rattle.std.specs.List.{join_with_byte};
ghost use Rattle.csv.specs.Writing.{comma};
ghost use Rattle.type_a.specs.Tables.{width_of, refusal};
ghost use Rattle.row_text.specs.Printing.{number_fields, records_text, head_text, block_text};

use crate::print::put_number;
use formula_ast::Name;
use line_text::{Bytes, OutOfMemory};
use type_a::Readings;

/// Puts the names at the end, with a comma between each two.
fn put_names(out: &mut Bytes, names: &[Name]) -> Result<(), OutOfMemory>
    ensures { OnOk result (out.new ≡ out.old ++ join_with_byte comma names.now) }
{
    let Some((first, others)) = names.split_first() else {
        return Ok(());
    };
    out.extend_from_slice(first.as_bytes())?;
    for name in others {
        out.push(b',')?;
        out.extend_from_slice(name.as_bytes())?;
    }
    Ok(())
}

/// Puts the numbers of this record at the end, with a comma between each two.
fn put_record(out: &mut Bytes, readings: &Readings, row: usize) -> Result<(), OutOfMemory>
    requires taken { refusal readings.now ≡ None }
    requires some { 0 < width_of readings.now }
    requires row { row < length readings.now }
    ensures { OnOk result (out.new ≡ out.old ++ join_with_byte comma (number_fields (get_or readings.now row []))) }
{
    put_number(out, b"", &readings.value_at(row, 0))?;
    for column in 1..readings.width() {
        put_number(out, b",", &readings.value_at(row, column))?;
    }
    Ok(())
}

/// Puts the records at the end, a line each.
fn put_records(out: &mut Bytes, readings: &Readings) -> Result<(), OutOfMemory>
    requires taken { refusal readings.now ≡ None }
    requires some { 0 < width_of readings.now }
    ensures { OnOk result (out.new ≡ out.old ++ records_text readings.now) }
{
    for row in 0..readings.count() {
        put_record(out, readings, row)?;
        out.push(b'\n')?;
    }
    Ok(())
}

/// Puts the text of the table at the end.
pub(crate) fn put_table(
    out: &mut Bytes,
    name: &Name,
    columns: &[Name],
    readings: &Readings,
) -> Result<(), OutOfMemory>
    requires taken { refusal readings.now ≡ None }
    requires some { 0 < width_of readings.now }
    ensures { OnOk result (out.new ≡ out.old ++ (head_text name.now ++ codes "\n" ++ block_text columns.now readings.now ++ codes "end")) }
{
    out.extend_from_slice(b"table ")?;
    out.extend_from_slice(name.as_bytes())?;
    out.push(b'\n')?;
    put_names(out, columns)?;
    out.push(b'\n')?;
    put_records(out, readings)?;
    out.extend_from_slice(b"end")
}
