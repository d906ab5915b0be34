ghost use Rattle.std.specs.Prelude.{◌≡◌, ◌<◌, None, false, length};
ghost use Rattle.type_a.specs.Tables.{finest, is_wide, reading_at, refusal, table_of, width_of};

use decimal18::Dec;

/// A reading of a table that is taken.
pub fn reading_at(records: &[Vec<Dec>], row: usize, column: usize) -> Dec
    requires taken { refusal (table_of records.now) ≡ None }
    requires row { row < length records.now }
    requires column { column < width_of (table_of records.now) }
    ensures value { result ≡ reading_at (table_of records.now) row column }
    ensures narrow { is_wide (finest (table_of records.now)) result ≡ false }
{
    records[row][column]
}
