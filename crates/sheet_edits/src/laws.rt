ghost use Rattle.std.specs.Prelude.{◌≡◌, true, List, ℕ, Ok};
ghost use Rattle.sheet_rows.specs.Rows.{Row, Sheet, empty_sheet, name_of};
ghost use Rattle.sheet_rows.specs.Regular.{IsRegular};
ghost use Rattle.sheet_rows.specs.Sheets.{IsStanding, IsWellFormed, has_row};
ghost use Rattle.sheet_edits.specs.Verdicts.{IsAccepted, added, set_row, removed, verdict_add, verdict_set, verdict_remove};

/// A row is added exactly where the sheet with it put last is well formed, and that is then the sheet.
pub fn adding_is_accepted_where_well_formed()
    ensures accepted { (sheet : Sheet) (row : Row) → IsWellFormed sheet → (edited : Sheet) → verdict_add sheet row ≡ Ok edited
        → IsAccepted edited (added sheet row) }
    ensures well_formed { (sheet : Sheet) (row : Row) → IsWellFormed sheet → IsWellFormed (added sheet row)
        → verdict_add sheet row ≡ Ok (added sheet row) }
{}

/// A row is set exactly where a row has its name and the sheet with it at that row's place is well formed,
/// and that is then the sheet.
pub fn setting_is_accepted_where_well_formed()
    ensures accepted { (sheet : Sheet) (row : Row) → IsStanding sheet → IsRegular row → (edited : Sheet) → verdict_set sheet row ≡ Ok edited
        → IsAccepted edited (set_row row sheet) }
    ensures there { (sheet : Sheet) (row : Row) (edited : Sheet) → verdict_set sheet row ≡ Ok edited → has_row sheet (name_of row) ≡ true }
    ensures well_formed { (sheet : Sheet) (row : Row) → IsWellFormed sheet → has_row sheet (name_of row) ≡ true → IsWellFormed (set_row row sheet)
        → verdict_set sheet row ≡ Ok (set_row row sheet) }
{}

/// A row is removed exactly where a row has the name and the sheet without it is well formed, and that
/// is then the sheet.
pub fn removing_is_accepted_where_well_formed()
    ensures accepted { (sheet : Sheet) (n : List ℕ) → IsWellFormed sheet → (edited : Sheet) → verdict_remove sheet n ≡ Ok edited
        → IsAccepted edited (removed n sheet) }
    ensures there { (sheet : Sheet) (n : List ℕ) (edited : Sheet) → verdict_remove sheet n ≡ Ok edited → has_row sheet n ≡ true }
    ensures well_formed { (sheet : Sheet) (n : List ℕ) → IsStanding sheet → has_row sheet n ≡ true → IsWellFormed (removed n sheet)
        → verdict_remove sheet n ≡ Ok (removed n sheet) }
{}

/// The sheet without rows is well formed, and none of its rows is not regular.
pub fn the_empty_sheet_stands()
    ensures { IsStanding empty_sheet }
{}

/// An edit that is accepted with a regular row makes, of a well-formed sheet of regular rows, another one.
pub fn edits_keep_sheets_standing()
    ensures add { (sheet edited : Sheet) (row : Row) → IsStanding sheet → IsRegular row → verdict_add sheet row ≡ Ok edited → IsStanding edited }
    ensures set { (sheet edited : Sheet) (row : Row) → IsStanding sheet → IsRegular row → verdict_set sheet row ≡ Ok edited → IsStanding edited }
    ensures remove { (sheet edited : Sheet) (n : List ℕ) → IsStanding sheet → verdict_remove sheet n ≡ Ok edited → IsStanding edited }
{}
