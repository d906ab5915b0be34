ghost use Rattle.std.specs.Prelude.{◌≡◌, ℕ, List, false, find, not, Some, None, Ok, Err, OnErr, OnOk, IfOk, IfErr, slice_get};
ghost use Rattle.sheet_rows.specs.Rows.{row_of, name_of, row_part, names_used};
ghost use Rattle.sheet_rows.specs.Regular.{IsRegular};
ghost use Rattle.sheet_rows.specs.Sheets.{IsStanding, is_named, has_row};
ghost use Rattle.sheet_edits.specs.Verdicts.{Verdict, added, set_row, removed, unless, unless_left, verdict_add, verdict_set, verdict_remove};
ghost use Rattle.sheet_edits.specs.Places.{place_of, is_known_with, stands_before, loses_nothing, unless_names_fail, verdict_of, IsVerdict, IsChecked};
ghost use Rattle.sheet_rows.specs.declared.edit_fault.EditFault.{EditFault};
ghost use Rattle.sheet_rows.specs.declared.edit_fault.EditFault.TheVariants.{Unknown, NotEarlier};

use crate::sheet::Sheet;
use crate::users::{first_left_by, first_user};
use formula_ast::{Name, cut};
use sheet_rows::{EditFault, Row};
use std::rc::Rc;

/// The most rows of a sheet.
const ROW_LIMIT: usize = 4096;

// Whether the name would be that of a quantity of the row.
fn is_of_row(name: &Name, row: &Row) -> bool
    ensures { result ≡ is_named (row_part name.now) (row_of row.now) }
{
    let (part, _) = cut(name.as_bytes(), b'.');
    part == row.name().as_bytes()
}

// Whether the old row has no columns, and its name is still a quantity, and that of an input that may be correlated,
// where it was one.
fn loses_nothing(old: &Row, row: &Row) -> bool
    ensures { result ≡ loses_nothing (row_of old.now) (row_of row.now) }
{
    let name = old.name();
    !matches!(old, Row::Joint { .. })
        && (row.gives(name) || !old.gives(name))
        && (row.is_correlatable() || !old.is_correlatable())
}

impl Sheet {
    // Whether the name is that of a quantity, where the row is put in.
    fn is_known_with(&self, row: &Row, name: &Name) -> bool
        ensures { result ≡ is_known_with self.now (row_of row.now) name.now }
    {
        if is_of_row(name, row) {
            return row.gives(name);
        }
        self.has_quantity(name)
    }

    // Whether the name is that of a quantity whose row stands before the place.
    fn stands_before(&self, at: usize, name: &Name) -> bool
        ensures { result ≡ stands_before self.now at name.now }
    {
        match self.place_of_quantity(name) {
            Some(place) => place < at && self.has_quantity(name),
            None => false,
        }
    }

    fn first_unknown(&self, row: &Row, names: &[Name]) -> Option<Name>
        ensures { result ≡ find (λ n. not (is_known_with self.now (row_of row.now) n)) names.now }
    {
        for name in names {
            if !self.is_known_with(row, name) {
                return Some(*name);
            }
        }
        None
    }

    fn first_not_earlier(&self, at: usize, names: &[Name]) -> Option<Name>
        ensures { result ≡ find (λ n. not (stands_before self.now at n)) names.now }
    {
        for name in names {
            if !self.stands_before(at, name) {
                return Some(*name);
            }
        }
        None
    }

    // Whether each name that the row uses is that of a quantity, and of one whose row stands before the place.
    fn check_uses(&self, row: &Row, at: usize) -> Result<(), EditFault>
        ensures { (rest : Verdict) → IsChecked result rest
            (unless (find (λ n. not (is_known_with self.now (row_of row.now) n)) (names_used (row_of row.now))) Unknown
            (unless (find (λ n. not (stands_before self.now at n)) (names_used (row_of row.now))) NotEarlier rest)) }
    {
        let names = row.used_names(self.allocator())?;
        if let Some(name) = self.first_unknown(row, names.as_slice()) {
            return Err(EditFault::Unknown(name));
        }
        if let Some(name) = self.first_not_earlier(at, names.as_slice()) {
            return Err(EditFault::NotEarlier(name));
        }
        Ok(())
    }

    // The refusals by the names of the row, which is put at the place.
    fn check_names(&self, row: &Row, at: usize) -> Result<(), EditFault>
        ensures { (rest : Verdict) → IsChecked result rest (unless_names_fail self.now (row_of row.now) at rest) }
    {
        self.check_uses(row, at)?;
        self.check_correlated(row)
    }

    // The verdict on adding the row.
    fn check_added(&self, row: &Row) -> Result<(), EditFault>
        requires { IsRegular (row_of row.now) }
        ensures verdict { IsVerdict result (added self.now (row_of row.now)) (verdict_add self.now (row_of row.now)) }
        ensures full { verdict_add self.now (row_of row.now) ≡ Err EditFault.RowsFull → result ≡ Err EditFault.RowsFull }
        ensures duplicate { (n : List ℕ) → verdict_add self.now (row_of row.now) ≡ Err (EditFault.Duplicate n) → result ≡ Err (EditFault.Duplicate n) }
        ensures new { OnOk result (place_of self.now (name_of (row_of row.now)) ≡ None) }
        ensures standing { OnOk result (IsStanding (added self.now (row_of row.now))) }
    {
        if self.rows().len() >= ROW_LIMIT {
            return Err(EditFault::RowsFull);
        }
        if self.place_of(row.name()).is_some() {
            return Err(EditFault::Duplicate(*row.name()));
        }
        self.check_names(row, self.len())
    }

    // The verdict on setting the row, whose place is `at`.
    fn check_set(&self, row: &Row, at: usize) -> Result<(), EditFault>
        requires regular { IsRegular (row_of row.now) }
        requires there { place_of self.now (name_of (row_of row.now)) ≡ Some at }
        ensures verdict { IsVerdict result (set_row (row_of row.now) self.now) (verdict_set self.now (row_of row.now)) }
        ensures standing { OnOk result (IsStanding (set_row (row_of row.now) self.now)) }
    {
        // The contract of `rows` says that the sheet is well formed.
        let _rows = self.rows();
        self.check_names(row, at)?;
        match self.row_named(row.name()) {
            Some(old) => self.check_left(old, row),
            None => Ok(()),
        }
    }

    // Whether no other row is left without what it uses or correlates, where the row is put in the place of that of
    // its name. The rows are looked through only where something is lost.
    fn check_left(&self, old: &Row, row: &Row) -> Result<(), EditFault>
        requires regular { IsRegular (row_of row.now) }
        requires old { find (is_named (name_of (row_of row.now))) self.now.rows ≡ Some (row_of old.now) }
        ensures { IsVerdict result (set_row (row_of row.now) self.now) (unless_left (set_row (row_of row.now) self.now) (row_of row.now)) }
    {
        let rows = self.rows();
        if loses_nothing(old, row) {
            return Ok(());
        }
        match first_left_by(rows, old, row) {
            Some(user) => Err(EditFault::InUse(user)),
            None => Ok(()),
        }
    }

    // The verdict on removing the row of this name, whose place is `at`.
    fn check_removed(&self, name: &Name, at: usize) -> Result<(), EditFault>
        requires { place_of self.now name.now ≡ Some at }
        ensures verdict { verdict_of result (removed name.now self.now) ≡ verdict_remove self.now name.now }
        ensures standing { OnOk result (IsStanding (removed name.now self.now)) }
    {
        let rows = self.rows();
        let Some(row) = self.row_named(name) else {
            return Ok(());
        };
        match first_user(rows, row) {
            Some(user) => Err(EditFault::InUse(user)),
            None => Ok(()),
        }
    }

    // The verdict on setting the row, and the place of that of its name.
    fn place_to_set(&self, row: &Row) -> Result<usize, EditFault>
        requires { IsRegular (row_of row.now) }
        ensures verdict { IsVerdict result (set_row (row_of row.now) self.now) (verdict_set self.now (row_of row.now)) }
        ensures unknown { has_row self.now (name_of (row_of row.now)) ≡ false → result ≡ Err (EditFault.Unknown (name_of (row_of row.now))) }
        ensures there { IfOk result (λ at. place_of self.now (name_of (row_of row.now)) ≡ Some at) }
        ensures standing { OnOk result (IsStanding (set_row (row_of row.now) self.now)) }
    {
        let name = row.name();
        let Some(at) = self.place_of(name) else {
            return Err(EditFault::Unknown(*name));
        };
        self.check_set(row, at)?;
        Ok(at)
    }

    // The verdict on removing the row of this name, and its place.
    fn place_to_remove(&self, name: &Name) -> Result<usize, EditFault>
        ensures verdict { verdict_of result (removed name.now self.now) ≡ verdict_remove self.now name.now }
        ensures there { IfOk result (λ at. place_of self.now name.now ≡ Some at) }
        ensures standing { OnOk result (IsStanding (removed name.now self.now)) }
    {
        let Some(at) = self.place_of(name) else {
            return Err(EditFault::Unknown(*name));
        };
        self.check_removed(name, at)?;
        Ok(at)
    }

    // Puts a row last that is accepted.
    fn put_last(&mut self, row: Row) -> Result<(), EditFault>
        requires new { place_of self.old (name_of (row_of row)) ≡ None }
        requires standing { IsStanding (added self.old (row_of row)) }
        ensures ok { OnOk result (self.new ≡ added self.old (row_of row)) }
        ensures err { IfErr result (λ fault. fault ≡ EditFault.OutOfMemory) }
        ensures unchanged { OnErr result (self.new ≡ self.old) }
    {
        let name = *row.name();
        match Rc::new(self.allocator(), row) {
            Ok(row) => {
                self.push(name, row)?;
                Ok(())
            }
            Err(_) => Err(EditFault::OutOfMemory),
        }
    }

    // Puts a row that is accepted in the place of that of its name, and hands the old row out.
    fn put_in_place(&mut self, at: usize, row: Row) -> Result<Rc<Row>, EditFault>
        requires there { place_of self.old (name_of (row_of row)) ≡ Some at }
        requires standing { IsStanding (set_row (row_of row) self.old) }
        ensures ok { OnOk result (self.new ≡ set_row (row_of row) self.old) }
        ensures old { IfOk result (λ old. find (is_named (name_of (row_of row))) self.old.rows ≡ Some (row_of old.value)) }
        ensures err { IfErr result (λ fault. fault ≡ EditFault.OutOfMemory) }
        ensures unchanged { OnErr result (self.new ≡ self.old) }
    {
        match Rc::new(self.allocator(), row) {
            Ok(row) => Ok(self.exchange(at, row)),
            Err(_) => Err(EditFault::OutOfMemory),
        }
    }

    // Takes a row out, and hands it out.
    fn take_out(&mut self, name: &Name, at: usize) -> Rc<Row>
        requires there { place_of self.old name.now ≡ Some at }
        requires standing { IsStanding (removed name.now self.old) }
        ensures old { slice_get self.old.rows at ≡ Some (row_of result.value) }
        ensures new { self.new ≡ removed name.now self.old }
    {
        self.withdraw(at)
    }

    /// Adds a row, which is put last. It takes the time of finding the row's own names; for a correlation it looks
    /// at each row.
    ///
    /// # Errors
    ///
    /// The first refusal that applies, from [`EditFault::RowsFull`] to [`EditFault::AlreadyCorrelated`],
    /// or [`EditFault::OutOfMemory`], which hides neither of the first two. The sheet is then as before, and the
    /// row is dropped.
    pub fn try_add(&mut self, row: Row) -> Result<(), EditFault>
        requires { IsRegular (row_of row) }
        ensures verdict { IsVerdict result self.new (verdict_add self.old (row_of row)) }
        ensures full { verdict_add self.old (row_of row) ≡ Err EditFault.RowsFull → result ≡ Err EditFault.RowsFull }
        ensures duplicate { (n : List ℕ) → verdict_add self.old (row_of row) ≡ Err (EditFault.Duplicate n) → result ≡ Err (EditFault.Duplicate n) }
        ensures unchanged { OnErr result (self.new ≡ self.old) }
    {
        if let Err(fault) = self.check_added(&row) {
            discard(row);
            return Err(fault);
        }
        self.put_last(row)
    }

    /// Adds a row as [`Sheet::try_add`] does, and hands out a copy of the sheet before. Only an accepted row has the sheet
    /// copied.
    ///
    /// # Errors
    ///
    /// Those of [`Sheet::try_add`].
    pub fn try_add_with_copy(&mut self, row: Row) -> Result<Sheet, EditFault>
        requires { IsRegular (row_of row) }
        ensures verdict { IsVerdict result self.new (verdict_add self.old (row_of row)) }
        ensures full { verdict_add self.old (row_of row) ≡ Err EditFault.RowsFull → result ≡ Err EditFault.RowsFull }
        ensures duplicate { (n : List ℕ) → verdict_add self.old (row_of row) ≡ Err (EditFault.Duplicate n) → result ≡ Err (EditFault.Duplicate n) }
        ensures before { IfOk result (λ before. before ≡ self.old) }
        ensures unchanged { OnErr result (self.new ≡ self.old) }
    {
        if let Err(fault) = self.check_added(&row) {
            discard(row);
            return Err(fault);
        }
        let before = self.copy()?;
        self.put_last(row)?;
        Ok(before)
    }

    /// Puts a row in the place of that of its name, and hands the old row out. It takes the time of finding the row's
    /// own names; it looks at each row where other rows may use or correlate what the old row was and the new one is
    /// not, and for a correlation.
    ///
    /// # Errors
    ///
    /// The first refusal that applies, from [`EditFault::Unknown`] to [`EditFault::InUse`], or
    /// [`EditFault::OutOfMemory`], which does not hide that no row has the row's name. The sheet is then as
    /// before, and the row is dropped.
    pub fn try_set(&mut self, row: Row) -> Result<Rc<Row>, EditFault>
        requires { IsRegular (row_of row) }
        ensures verdict { IsVerdict result self.new (verdict_set self.old (row_of row)) }
        ensures unknown { has_row self.old (name_of (row_of row)) ≡ false → result ≡ Err (EditFault.Unknown (name_of (row_of row))) }
        ensures old { IfOk result (λ old. find (is_named (name_of (row_of row))) self.old.rows ≡ Some (row_of old.value)) }
        ensures unchanged { OnErr result (self.new ≡ self.old) }
    {
        match self.place_to_set(&row) {
            Ok(at) => self.put_in_place(at, row),
            Err(fault) => {
                discard(row);
                Err(fault)
            }
        }
    }

    /// Sets a row as [`Sheet::try_set`] does, and hands out a copy of the sheet before. Only an accepted row has the sheet
    /// copied.
    ///
    /// # Errors
    ///
    /// Those of [`Sheet::try_set`].
    pub fn try_set_with_copy(&mut self, row: Row) -> Result<Sheet, EditFault>
        requires { IsRegular (row_of row) }
        ensures verdict { IsVerdict result self.new (verdict_set self.old (row_of row)) }
        ensures unknown { has_row self.old (name_of (row_of row)) ≡ false → result ≡ Err (EditFault.Unknown (name_of (row_of row))) }
        ensures before { IfOk result (λ before. before ≡ self.old) }
        ensures unchanged { OnErr result (self.new ≡ self.old) }
    {
        match self.place_to_set(&row) {
            Ok(at) => {
                let before = self.copy()?;
                self.put_in_place(at, row)?;
                Ok(before)
            }
            Err(fault) => {
                discard(row);
                Err(fault)
            }
        }
    }

    /// Takes the row of this name out, and hands out its place, counted from 0, and the row. It looks
    /// at each row once.
    ///
    /// # Errors
    ///
    /// The first refusal that applies, [`EditFault::Unknown`] or [`EditFault::InUse`]. The sheet is then as
    /// before.
    pub fn try_remove(&mut self, name: &Name) -> Result<(usize, Rc<Row>), EditFault>
        ensures verdict { verdict_of result self.new ≡ verdict_remove self.old name.now }
        ensures place { IfOk result (λ r. place_of self.old name.now ≡ Some r.0) }
        ensures row { IfOk result (λ r. slice_get self.old.rows r.0 ≡ Some (row_of r.1.value)) }
        ensures unchanged { OnErr result (self.new ≡ self.old) }
    {
        let at = self.place_to_remove(name)?;
        Ok((at, self.take_out(name, at)))
    }

    /// Removes a row as [`Sheet::try_remove`] does, and hands out a copy of the sheet before. Only an accepted removal has
    /// the sheet copied.
    ///
    /// # Errors
    ///
    /// Those of [`Sheet::try_remove`], or [`EditFault::OutOfMemory`], which hides none of them. The sheet is then as before.
    pub fn try_remove_with_copy(&mut self, name: &Name) -> Result<Sheet, EditFault>
        ensures verdict { IsVerdict result self.new (verdict_remove self.old name.now) }
        ensures refusal { (fault : EditFault) → verdict_remove self.old name.now ≡ Err fault → result ≡ Err fault }
        ensures before { IfOk result (λ before. before ≡ self.old) }
        ensures unchanged { OnErr result (self.new ≡ self.old) }
    {
        let at = self.place_to_remove(name)?;
        let before = self.copy()?;
        self.take_out(name, at);
        Ok(before)
    }
}

fn discard(_row: Row) {}
