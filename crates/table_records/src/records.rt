ghost use Rattle.std.specs.Prelude.{◌≡◌, map, IfOk};
ghost use Rattle.csv.specs.Records.{fields_of};
ghost use Rattle.line_text.specs.Memory.{GivesBy};
ghost use Rattle.table_records.specs.declared.fault.RecordsFault.TheVariants.{OutOfMemory};
ghost use Rattle.table_records.specs.Tables.{table_of, table_in, records_read, IsTable};

use crate::fault::RecordsFault;
use crate::fields::records_of;
use crate::header::names_of;
use crate::rows::rows_of;
use csv::ByteRecord;
use decimal18::Dec;
use formula_ast::NameList;
use std::alloc::Global;

/// Joint readings as a block writes them.
#[derive(Drop, Debug)]
pub struct Records {
    /// The names of the columns, in order.
    pub columns: NameList,
    /// The records below the header, in order: each a number for each column.
    pub rows: Vec<Vec<Dec>>,
}

/// The table of which these are the records.
fn table_in(alloc: Global, records: &[ByteRecord]) -> Result<Records, RecordsFault>
    ensures { GivesBy table_of OutOfMemory result (table_in (map fields_of records.now)) }
{
    let Some((header, below)) = records.split_first() else {
        return Err(RecordsFault::TooFew);
    };
    let columns = names_of(alloc, header)?;
    let rows = rows_of(alloc, columns.as_slice().len(), below)?;
    Ok(Records { columns, rows })
}

/// The names of columns and the rows of numbers that the text of a block is: fields are parted by commas and
/// may stand in double quotes, records end with a line feed, a carriage return or both, lines without bytes
/// are passed, a byte order mark at the start too, and blanks at the ends of a field do not count.
///
/// # Errors
///
/// What breaks a rule first: [`RecordsFault::TooFew`] where there is no record; [`RecordsFault::Shape`] of the
/// header; and of the records below it, one by one, [`RecordsFault::Shape`] and then, field by field,
/// [`RecordsFault::NotNumber`] and [`RecordsFault::NumberRange`]. Or [`RecordsFault::OutOfMemory`], where
/// there is no memory for the records.
pub fn read_records(alloc: Global, block: &[u8]) -> Result<Records, RecordsFault>
    ensures exact { GivesBy table_of OutOfMemory result (records_read block.now) }
    ensures table { IfOk result (λ records. IsTable (table_of records)) }
{
    let records = records_of(alloc, block)?;
    table_in(alloc, records.as_slice())
}
