ghost use Rattle.std.specs.Prelude.{◌≡◌, ◌<◌, map, length, find, None, Some, remove, slice_get, IfOk, OnOk, OnErr};
ghost use Rattle.std.specs.Option.{option_map};
ghost use Rattle.sheet_rows.specs.Rows.{empty_sheet, row_of, row_part};
ghost use Rattle.sheet_rows.specs.Sheets.{IsStanding, is_named, has_quantity, has_input, is_correlatable_in, rule_of};
ghost use Rattle.sheet_edits.specs.Verdicts.{added, set_row};
ghost use Rattle.sheet_edits.specs.Places.{place_of, code_name};

use formula_ast::{Name, cut};
use guard_band::Rule;
use indexmap::IndexMap;
use line_text::OutOfMemory;
use sheet_rows::Row;
use std::alloc::Global;
use std::marker::Model;
use std::rc::Rc;

/// A well-formed list of regular rows, found by their places and by their names. Copies of a sheet share
/// its rows.
#[derive(Drop)]
pub struct Sheet {
    alloc: Global,
    rows: IndexMap<Name, Rc<Row>>,
}

impl Model for Sheet {
    ghost use Rattle.sheet_rows.specs.Rows.{Sheet};
    ghost use Rattle.sheet_rows.specs.Codes.{coded_sheet};

    ghost Value = { Sheet };

    ghost coded = { coded_sheet };

    ghost use Rattle.sheet_edits.specs.States.{sheet_of, IsSheet};

    ghost view = { sheet_of };

    ghost invariant = { IsSheet };
}

impl Sheet {
    /// The sheet without rows.
    ///
    /// # Errors
    ///
    /// [`OutOfMemory`] where there is no memory for it; it takes none yet.
    pub fn new(alloc: Global) -> Result<Sheet, OutOfMemory>
        ensures { IfOk result (λ sheet. sheet ≡ empty_sheet) }
    {
        Ok(Sheet {
            alloc,
            rows: IndexMap::new(alloc),
        })
    }

    /// The number of rows.
    pub fn len(&self) -> usize
        ensures { result ≡ length self.now.rows }
    {
        self.rows.len()
    }

    /// The place of the row of this name, counted from 0.
    pub fn place_of(&self, name: &Name) -> Option<usize>
        ensures { result ≡ place_of self.now name.now }
    {
        self.rows.get_index_of(name)
    }

    /// Whether the name is that of a quantity of the sheet.
    pub fn has_quantity(&self, name: &Name) -> bool
        ensures { result ≡ has_quantity self.now name.now }
    {
        match self.row_of_quantity(name) {
            Some(row) => row.gives(name),
            None => false,
        }
    }

    /// Whether the name is that of an input of the sheet.
    pub fn has_input(&self, name: &Name) -> bool
        ensures { result ≡ has_input self.now name.now }
    {
        match self.row_of_quantity(name) {
            Some(row) => row.gives_input(name),
            None => false,
        }
    }

    /// The rule of the tolerance of this name, where it is that of one.
    pub fn rule(&self, name: &Name) -> Option<Rule>
        ensures { result ≡ rule_of self.now name.now }
    {
        match self.row_named(name) {
            Some(row) => row.rule(),
            None => None,
        }
    }

    // Whether the name is that of an input that may be correlated.
    pub(crate) fn has_correlatable(&self, name: &Name) -> bool
        ensures { result ≡ is_correlatable_in self.now.rows name.now }
    {
        match self.row_named(name) {
            Some(row) => row.is_correlatable(),
            None => false,
        }
    }

    // The place of the row of which the name would be a quantity.
    pub(crate) fn place_of_quantity(&self, name: &Name) -> Option<usize>
        ensures { result ≡ place_of self.now (row_part name.now) }
    {
        // The contract of `rows` says that the names of rows are plain ones.
        let _rows = self.rows();
        let (table, column) = cut(name.as_bytes(), b'.');
        if column.is_none() {
            return self.place_of(name);
        }
        match Name::plain(table) {
            Some(table) => self.place_of(&table),
            None => None,
        }
    }

    // The row of which the name would be a quantity.
    fn row_of_quantity(&self, name: &Name) -> Option<&Rc<Row>>
        ensures row { option_map (λ row. row_of row.now.value) result ≡ find (is_named (row_part name.now)) self.now.rows }
        ensures standing { IsStanding self.now }
    {
        // The contract of `rows` says that the sheet is well formed.
        let _rows = self.rows();
        match self.place_of_quantity(name) {
            Some(at) => self.row_at(at),
            None => None,
        }
    }

    // The row of this name, and that the sheet is well formed: it is the only one.
    pub(crate) fn row_named(&self, name: &Name) -> Option<&Rc<Row>>
        ensures row { option_map (λ row. row_of row.now.value) result ≡ find (is_named name.now) self.now.rows }
        ensures standing { IsStanding self.now }
    {
        // The contract of `rows` says that the sheet is well formed.
        let _rows = self.rows();
        match self.place_of(name) {
            Some(at) => self.row_at(at),
            None => None,
        }
    }

    /// The row at this place, counted from 0.
    pub fn row_at(&self, at: usize) -> Option<&Rc<Row>>
        ensures { option_map (λ row. row_of row.now.value) result ≡ slice_get self.now.rows at }
    {
        match self.rows.get_index(at) {
            Some((_, row)) => Some(row),
            None => None,
        }
    }

    /// The rows in order. They are regular, and the sheet is well formed.
    pub fn rows(&self) -> &[Rc<Row>]
        ensures rows { map (λ row. row_of row.value) result.now ≡ self.now.rows }
        ensures standing { IsStanding self.now }
    {
        self.rows.values().as_slice()
    }

    /// A copy, which shares the rows.
    ///
    /// # Errors
    ///
    /// [`OutOfMemory`] where there is no memory for it.
    pub fn copy(&self) -> Result<Sheet, OutOfMemory>
        ensures { IfOk result (λ copy. copy ≡ self.now) }
    {
        Ok(Sheet {
            alloc: self.alloc,
            rows: self.rows.clone()?,
        })
    }

    pub(crate) fn allocator(&self) -> Global {
        self.alloc
    }

    // Puts a row of a new name last.
    pub(crate) fn push(&mut self, name: Name, row: Rc<Row>) -> Result<(), OutOfMemory>
        requires named { name ≡ code_name row.value }
        requires new { place_of self.old name ≡ None }
        requires standing { IsStanding (added self.old (row_of row.value)) }
        ensures ok { OnOk result (self.new ≡ added self.old (row_of row.value)) }
        ensures err { OnErr result (self.new ≡ self.old) }
    {
        self.rows.insert(name, row)?;
        Ok(())
    }

    // Puts the row in the place of one of the same name, and hands that out.
    pub(crate) fn exchange(&mut self, at: usize, row: Rc<Row>) -> Rc<Row>
        requires there { place_of self.old (code_name row.value) ≡ Some at }
        requires standing { IsStanding (set_row (row_of row.value) self.old) }
        ensures old { find (is_named (code_name row.value)) self.old.rows ≡ Some (row_of result.value) }
        ensures new { self.new ≡ set_row (row_of row.value) self.old }
    {
        std::mem::replace(&mut self.rows[at], row)
    }

    // Takes the row at a place out, and hands it out.
    pub(crate) fn withdraw(&mut self, at: usize) -> Rc<Row>
        requires within { at < length self.old.rows }
        requires standing { IsStanding (record { rows = remove self.old.rows at }) }
        ensures old { slice_get self.old.rows at ≡ Some (row_of result.value) }
        ensures new { self.new.rows ≡ remove self.old.rows at }
    {
        self.rows.shift_remove_index(at).unwrap().1
    }
}
