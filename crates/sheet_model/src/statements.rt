ghost use Rattle.std.specs.Prelude.{◌≡◌, ℕ, ◌||◌, true, if◌then◌else◌, List, Some, bytes_eq, map, IfOk, OnOk};
ghost use Rattle.std.specs.List.{list_any};
ghost use Rattle.std.specs.Map.{lookup};
ghost use Rattle.std.specs.Option.{unwrap_or};
ghost use Rattle.type_b.specs.declared.shape.Shape.TheVariants.{Exact};
ghost use Rattle.sheet_rows.specs.Rows.{row_of};
ghost use Rattle.sheet_rows.specs.Sheets.{are_named_once};
ghost use Rattle.sheet_model.specs.Statements.{AreStated, StatesMore};

use formula_ast::Name;
use indexmap::{IndexMap, IndexSet};
use line_text::OutOfMemory;
use sheet_rows::Row;
use std::alloc::Global;
use std::rc::Rc;
use type_b::Shape;

/// What the rows of a sheet say of its inputs, by their names: how the uncertainty of each is stated, and which are
/// correlated. So neither is searched in all rows for each row.
#[derive(Drop)]
pub(crate) struct Statements {
    pub(crate) shapes: IndexMap<Name, Shape>,
    pub(crate) correlated: IndexSet<Name>,
}

impl Statements {
    /// What these rows say.
    ///
    /// # Errors
    ///
    /// [`OutOfMemory`] where there is no memory for it.
    pub(crate) fn of(alloc: Global, rows: &[Rc<Row>]) -> Result<Statements, OutOfMemory>
        requires { are_named_once (map (λ row. row_of row.value) rows.now) ≡ true }
        ensures { IfOk result (λ found. AreStated (map (λ row. row_of row.value) rows.now) found) }
    {
        let mut found = Statements {
            shapes: IndexMap::new(alloc),
            correlated: IndexSet::new(alloc),
        };
        for row in rows {
            found.add(row)?;
        }
        Ok(found)
    }

    /// How the uncertainty of the input of this name is stated, and `Exact` where no row states it.
    pub(crate) fn shape(&self, name: &Name) -> Shape
        ensures { result ≡ unwrap_or (lookup (bytes_eq name.now) self.now.shapes.entries) Exact }
    {
        self.shapes.get(name).copied().unwrap_or(Shape::Exact)
    }

    /// Whether a row correlates the input of this name with another.
    pub(crate) fn is_correlated(&self, name: &Name) -> bool
        ensures { result ≡ list_any (bytes_eq name.now) self.now.correlated.keys }
    {
        self.correlated.contains(name)
    }

    // Adds what one row says.
    fn add(&mut self, row: &Row) -> Result<(), OutOfMemory>
        ensures { OnOk result (StatesMore self.old (row_of row.now) self.new) }
    {
        match row {
            Row::Given { name, shape, .. } => self.add_shape(*name, *shape),
            Row::Correlation { first, second, .. } => self.add_pair(*first, *second),
            Row::Readings { .. }
            | Row::Joint { .. }
            | Row::Formula { .. }
            | Row::Tolerance { .. } => Ok(()),
        }
    }

    // Adds how the input of this name is stated.
    fn add_shape(&mut self, name: Name, shape: Shape) -> Result<(), OutOfMemory>
        ensures shapes { OnOk result ((n : List ℕ) → lookup (bytes_eq n) self.new.shapes.entries
            ≡ (if bytes_eq name n then Some shape else lookup (bytes_eq n) self.old.shapes.entries)) }
        ensures correlated { self.new.correlated ≡ self.old.correlated }
    {
        self.shapes.insert(name, shape)?;
        Ok(())
    }

    // Adds that these inputs are correlated.
    fn add_pair(&mut self, first: Name, second: Name) -> Result<(), OutOfMemory>
        ensures correlated { OnOk result ((n : List ℕ) → list_any (bytes_eq n) self.new.correlated.keys
            ≡ (bytes_eq second n || (bytes_eq first n || list_any (bytes_eq n) self.old.correlated.keys))) }
        ensures shapes { self.new.shapes ≡ self.old.shapes }
    {
        self.correlated.insert(first)?;
        self.correlated.insert(second)?;
        Ok(())
    }
}
