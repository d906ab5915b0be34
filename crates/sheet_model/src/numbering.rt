ghost use Rattle.std.specs.Prelude.{◌≡◌, ◌<◌, ℕ, true, Some, List, [], ◌∷◌, ◌++◌, bytes_eq, nat_eq, length, slice_get, map, IfOk, OnOk};
ghost use Rattle.std.specs.List.{list_any, list_all};
ghost use Rattle.formula_ast.specs.Trees.{HasExponents};
ghost use Rattle.formula_ast.specs.Views.{tree_of};
ghost use Rattle.sheet_rows.specs.Rows.{row_of, sheet_of, Joint};
ghost use Rattle.sheet_rows.specs.Regular.{IsRegular};
ghost use Rattle.sheet_rows.specs.Sheets.{IsStanding};
ghost use Rattle.dep_graph.specs.Nodes.{has, ids_of};
ghost use Rattle.value_cache.specs.Quantities.{Quantity, by_names};
ghost use Rattle.value_cache.specs.Evaluations.{evaluation_of};
ghost use Rattle.value_cache.specs.Rules.{IsGraphOf};
ghost use Rattle.value_cache.specs.Slots.{bodies_of, cells_of};
ghost use Rattle.sheet_model.specs.Quantities.{column_quantities, row_quantities, quantities};
ghost use Rattle.sheet_model.specs.Numbering.{number_in, number_among, numbers_in, quantities_by, AreKept, AreAllKept, AreNext, CanTake, Takes, CanAdd, StandsFor};

use dep_graph::{Graph, Id, IdList};
use fixed_interval::Steps;
use formula_ast::{Formula, Name, NameList, names};
use indexmap::IndexSet;
use line_text::OutOfMemory;
use sheet_rows::{Row, column_name};
use std::alloc::Global;
use std::rc::Rc;
use std::sync::ledger::Ledger;
use type_a::Readings;
use value_cache::{Body, Cache, Evaluation};

/// The quantities of a sheet by numbers: the number of a quantity is its place among them.
#[derive(Drop)]
pub struct Numbered {
    /// Their names, in their order.
    pub names: IndexSet<Name>,
    /// Which of them uses which.
    pub graph: Graph,
    /// What each is, and the cells that were found.
    pub cache: Cache,
}

impl Numbered {
    /// The quantities of the sheet of these rows, none of which has a cell yet. They share the formulas and the
    /// readings of the rows.
    ///
    /// # Errors
    ///
    /// [`OutOfMemory`] where there is no memory for them.
    pub fn new(alloc: Global, rows: &[Rc<Row>]) -> Result<Numbered, OutOfMemory>
        requires { IsStanding (sheet_of (map (λ row. row_of row.value) rows.now)) }
        ensures { IfOk result (λ kept. AreAllKept (quantities (sheet_of (map (λ row. row_of row.value) rows.now))) kept) }
    {
        let mut numbered = Numbered {
            names: IndexSet::new(alloc),
            graph: Graph::new(alloc)?,
            cache: Cache::new(alloc)?,
        };
        for row in rows {
            numbered.add_row(alloc, row)?;
        }
        Ok(numbered)
    }

    /// The number of the quantity of this name.
    pub fn number(&self, name: &Name) -> Id
        requires { list_any (bytes_eq name.now) self.now.names.keys ≡ true }
        ensures { result ≡ number_in self.now.names.keys name.now }
    {
        Id(self.names.get_index_of(name).unwrap() as u64)
    }

    /// The name of the quantity of this number.
    pub fn name(&self, id: Id) -> Name
        requires { id < length self.now.names.keys }
        ensures { slice_get self.now.names.keys id ≡ Some result }
    {
        *self.names.get_index(id.0 as usize).unwrap()
    }

    /// The cell of the quantity of this number, which is found where it is not there.
    ///
    /// # Errors
    ///
    /// [`OutOfMemory`] where there is no memory for it.
    pub fn cell<L: Ledger>(
        &mut self,
        id: Id,
        steps: &mut Steps<L>,
    ) -> Result<Evaluation<Id>, OutOfMemory>
        requires graph { IsGraphOf self.old.graph (bodies_of self.old.cache) }
        requires there { has (ids_of self.old.graph) id ≡ true }
        ensures cell { IfOk result (λ cell. cells_of self.new.cache id ≡ Some cell) }
        ensures evaluation { IfOk result (λ cell. evaluation_of nat_eq (quantities_by self.old) id ≡ Some cell) }
        ensures names { self.new.names ≡ self.old.names }
        ensures graph { self.new.graph ≡ self.old.graph }
        ensures bodies { (n : ℕ) → bodies_of self.new.cache n ≡ bodies_of self.old.cache n }
    {
        self.cache.refresh(&self.graph, id, steps)?;
        // The contract of `peek` says that cells are right.
        Ok(self.cache.peek(id).unwrap())
    }

    // Adds the quantities of a row, which use those that were added before.
    fn add_row(&mut self, alloc: Global, row: &Row) -> Result<(), OutOfMemory>
        requires regular { IsRegular (row_of row.now) }
        requires next { CanTake self.old (row_quantities (row_of row.now)) }
        ensures { OnOk result (Takes self.old (row_quantities (row_of row.now)) self.new) }
    {
        match row {
            Row::Given { name, estimate, .. } => self.add(*name, Body::Point(*estimate)),
            Row::Readings { name, readings } => {
                self.add(*name, Body::Column(readings.clone()?, 0))
            }
            Row::Joint {
                name,
                columns,
                readings,
            } => self.add_columns(name, columns.as_slice(), readings),
            Row::Correlation { .. } | Row::Tolerance { .. } => Ok(()),
            Row::Formula { name, formula } => self.add_formula(alloc, *name, formula),
        }
    }

    // Adds the means of the columns of a table, each under its name.
    fn add_columns(
        &mut self,
        table: &Name,
        columns: &[Name],
        readings: &Rc<Readings>,
    ) -> Result<(), OutOfMemory>
        requires regular { IsRegular (Joint table.now columns.now readings.now.value) }
        requires next { CanTake self.old (column_quantities table.now readings.now.value 0 columns.now) }
        ensures { OnOk result (Takes self.old (column_quantities table.now readings.now.value 0 columns.now) self.new) }
    {
        for (place, column) in columns.iter().enumerate() {
            let body = Body::Column(readings.clone()?, place);
            self.add(column_name(table, column), body)?;
        }
        Ok(())
    }

    // Adds a formula whose names are those of quantities that were added before.
    fn add_formula(
        &mut self,
        alloc: Global,
        name: Name,
        formula: &Rc<Formula>,
    ) -> Result<(), OutOfMemory>
        requires exponents { HasExponents (tree_of formula.now.value) }
        requires next { CanTake self.old (record { key = name; body = by_names (tree_of formula.now.value) } ∷ []) }
        ensures { OnOk result (Takes self.old (record { key = name; body = by_names (tree_of formula.now.value) } ∷ []) self.new) }
    {
        let used = names(alloc, formula)?;
        let ids = self.numbers(alloc, &used)?;
        let body = Body::Formula {
            formula: formula.clone()?,
            names: used,
            ids,
        };
        self.add(name, body)
    }

    // The numbers of the quantities of these names.
    fn numbers(&self, alloc: Global, names: &NameList) -> Result<IdList, OutOfMemory>
        requires { list_all (λ n. list_any (bytes_eq n) self.now.names.keys) names.now ≡ true }
        ensures { IfOk result (λ ids. ids ≡ map (number_in self.now.names.keys) names.now) }
    {
        let mut ids = IdList::new(alloc)?;
        for name in names.as_slice() {
            ids.push(self.number(name))?;
        }
        Ok(ids)
    }

    // Adds a quantity of a new name, which uses those that were added before.
    fn add(&mut self, name: Name, body: Body) -> Result<(), OutOfMemory>
        requires { CanAdd self.old name body }
        ensures { (all before : List (Quantity (List ℕ))) (q : Quantity (List ℕ)) → AreKept all before self.old → AreNext all before (q ∷ [])
            → StandsFor (number_among all) q name body → OnOk result (AreKept all (before ++ q ∷ []) self.new) }
    {
        let place = self.names.len();
        let id = Id(place as u64);
        self.names.insert(name)?;
        self.graph.add_node(place, id, numbers_in(&body))?;
        self.cache.place(id, body)?;
        Ok(())
    }
}

// The numbers of the quantities that a body uses.
fn numbers_in(body: &Body) -> &[Id]
    ensures { result.now ≡ numbers_in body.now }
{
    match body {
        Body::Point(_) | Body::Column(..) => &[],
        Body::Formula { ids, .. } => ids.as_slice(),
    }
}
