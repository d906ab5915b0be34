//! What holds of reading and printing. Each function has an empty body, and its clauses are a theorem on the
//! definitions.

ghost use Rattle.std.specs.Prelude.{◌≡◌, ◌≢◌, ◌++◌, codes, ℕ, List, false, Ok, Err};
ghost use Rattle.type_a.specs.Tables.{Table};
ghost use Rattle.sheet_rows.specs.Rows.{Row, Joint, is_table};
ghost use Rattle.row_text.specs.Reading.{row_read};
ghost use Rattle.row_text.specs.Tables.{table_read};
ghost use Rattle.sheet_rows.specs.Regular.{IsRegular};
ghost use Rattle.row_text.specs.Printing.{head_text, block_text, printed};
ghost use Rattle.sheet_rows.specs.declared.fault.RowFault.TheVariants.{OutOfMemory};

/// The rows that lines and blocks give are regular, and the printed text of each regular row is read as the row again:
/// that of a table is the line that opens it, its block and the line `end`, and that of any other row is a line.
pub fn printed_rows_are_read_again()
    ensures again { (row : Row) → IsRegular row → is_table row ≡ false → row_read (printed row) 0 ≡ Ok row }
    ensures table { (name : List ℕ) (columns : List (List ℕ)) (t : Table) → IsRegular (Joint name columns t)
        → table_read (head_text name) 0 (block_text columns t) ≡ Ok (Joint name columns t) }
    ensures table_text { (name : List ℕ) (columns : List (List ℕ)) (t : Table)
        → printed (Joint name columns t) ≡ head_text name ++ codes "\n" ++ block_text columns t ++ codes "end" }
    ensures read { (line : List ℕ) (from : ℕ) (row : Row) → row_read line from ≡ Ok row → IsRegular row }
    ensures read_table { (line : List ℕ) (from : ℕ) (block : List ℕ) (row : Row) → table_read line from block ≡ Ok row → IsRegular row }
{}

/// What a line, and a line with a block, gives is a row or a refusal, and never out of memory.
pub fn rows_are_never_out_of_memory()
    ensures line { (line : List ℕ) (from : ℕ) → row_read line from ≢ Err OutOfMemory }
    ensures table { (line : List ℕ) (from : ℕ) (block : List ℕ) → table_read line from block ≢ Err OutOfMemory }
{}
