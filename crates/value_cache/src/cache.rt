ghost use Rattle.std.specs.Prelude.{◌≡◌, ◌+◌, ◌≤◌, ℕ, true, false, [], ◌∷◌, None, Some, Ok, IfOk, OnOk, OnErr, is_some, nat_eq, if◌then◌else◌, List, map};
ghost use Rattle.dep_graph.specs.Nodes.{has, ids_of};
ghost use Rattle.dep_graph.specs.Reaching.{DependsOn, IsCone};
ghost use Rattle.formula_ast.specs.Trees.{uses};
ghost use Rattle.formula_ast.specs.Views.{tree_of};
ghost use Rattle.formula_box.specs.Costs.{value_cost};
ghost use Rattle.value_cache.specs.Evaluations.{evaluation_of_formula};
ghost use Rattle.value_cache.specs.Rules.{AreRight, AreKept, AreFalling, IsGraphOf, are_found, cell_by, cost_of, fault_among, fault_of, uses_of, work};
ghost use Rattle.value_cache.specs.Slots.{body_at, body_view, IsNumbered, IsPlaceable, bodies_of, cells_of, key_by};

use crate::body::Body;
use crate::evaluation::Evaluation;
use crate::through::Through;
use dep_graph::{Graph, Id, IdList, cones_are_lists};
use fixed_interval::{Steps, point};
use formula_ast::{Formula, NameList};
use formula_box::{EvalFault, eval};
use indexmap::IndexMap;
use line_text::OutOfMemory;
use std::alloc::Global;
use std::marker::Model;
use std::sync::ledger::Ledger;

// The body of a quantity, and its cell, once that is found.
#[derive(Drop)]
struct Slot {
    body: Body,
    cell: Option<Evaluation<Id>>,
}

/// Quantities by numbers, with the cells of those whose evaluations are found.
#[derive(Drop)]
pub struct Cache {
    slots: IndexMap<Id, Slot>,
}

impl Model for Cache {
    ghost use Rattle.std.specs.Coded.{codes};
    ghost use Rattle.formula_ast.specs.contracts.formula.Formula as formula;
    ghost use Rattle.value_cache.specs.Slots.{Slots, IsCache};

    ghost Value = { Slots };

    ghost coded = { Prim.hlevel (codes, formula.the_row.coded) };

    ghost view = { λ cache. cache.slots.entries };

    ghost invariant = { λ cache. IsCache cache.slots.entries };
}

impl Cache {
    /// The cache without quantities. It takes no memory yet, so this is always `Ok`.
    ///
    /// # Errors
    ///
    /// None: the result has the form of the other calls that take an allocator.
    pub fn new(alloc: Global) -> Result<Cache, OutOfMemory>
        ensures { result ≡ Ok [] }
    {
        Ok(Cache {
            slots: IndexMap::new(alloc),
        })
    }

    /// Adds a quantity of a new number, with its body and no cell. A formula's exponents are from -9 to 9 and
    /// not 0, and a column is one that the readings have.
    ///
    /// # Errors
    ///
    /// [`OutOfMemory`] where there is no memory for it; the cache stays as it was.
    pub fn place(&mut self, id: Id, body: Body) -> Result<(), OutOfMemory>
        requires new { bodies_of self.old id ≡ None }
        requires body { IsPlaceable body }
        ensures bodies { OnOk result ((n : ℕ) → bodies_of self.new n ≡ (if nat_eq n id then Some (body_view body) else bodies_of self.old n)) }
        ensures cells { OnOk result ((n : ℕ) → cells_of self.new n ≡ cells_of self.old n) }
        ensures err { OnErr result (self.new ≡ self.old) }
    {
        self.slots.insert(id, Slot { body, cell: None })?;
        Ok(())
    }

    /// The cell of the quantity, where it has one.
    pub fn peek(&self, id: Id) -> Option<Evaluation<Id>>
        ensures cell { result ≡ cells_of self.now id }
        ensures right { AreRight (bodies_of self.now) (cells_of self.now) }
    {
        self.slots.get(&id)?.cell
    }

    /// The body of the quantity.
    pub fn body(&self, id: Id) -> &Body
        requires { is_some (bodies_of self.now id) ≡ true }
        ensures body { bodies_of self.now id ≡ Some (body_view result.now) }
        ensures placeable { IsPlaceable result.now }
    {
        &self.slots.get(&id).unwrap().body
    }

    /// The cell of the quantity, which with all on which the quantity depends has one afterwards. `graph` is that of
    /// the bodies. A cell that is there is not found again.
    ///
    /// # Errors
    ///
    /// [`OutOfMemory`] where there is no memory for the list of what the quantity depends on; no cell is lost.
    pub fn refresh<L: Ledger>(
        &mut self,
        graph: &Graph,
        id: Id,
        steps: &mut Steps<L>,
    ) -> Result<Evaluation<Id>, OutOfMemory>
        requires graph { IsGraphOf graph.now (bodies_of self.old) }
        requires there { has (ids_of graph.now) id ≡ true }
        ensures cell { IfOk result (λ cell. cells_of self.new id ≡ Some cell) }
        ensures bodies { (n : ℕ) → bodies_of self.new n ≡ bodies_of self.old n }
        ensures kept { AreKept (cells_of self.old) (cells_of self.new) }
        ensures others { (n : ℕ) → ¬ (DependsOn graph.now id n) → cells_of self.new n ≡ cells_of self.old n }
        ensures fresh { OnOk result ((n : ℕ) → DependsOn graph.now id n → is_some (cells_of self.new n) ≡ true) }
        ensures ticks { (cone : List ℕ) → IsCone graph.now id cone → steps.new ≤ steps.old + work (bodies_of self.old) (cells_of self.old) cone }
    {
        if let Some(cell) = self.peek(id) {
            return Ok(cell);
        }
        let cone = graph.cone(id)?;
        cones_are_lists();
        self.fill(cone.as_slice(), steps);
        Ok(self.peek(id).unwrap())
    }

    // Finds the cells of a list, in which each uses those after it alone.
    fn fill<L: Ledger>(&mut self, list: &[Id], steps: &mut Steps<L>)
        requires placed { (n : ℕ) → has list.now n ≡ true → is_some (bodies_of self.old n) ≡ true }
        requires falling { AreFalling (bodies_of self.old) list.now }
        ensures bodies { (n : ℕ) → bodies_of self.new n ≡ bodies_of self.old n }
        ensures kept { AreKept (cells_of self.old) (cells_of self.new) }
        ensures others { (n : ℕ) → has list.now n ≡ false → cells_of self.new n ≡ cells_of self.old n }
        ensures found { (n : ℕ) → has list.now n ≡ true → is_some (cells_of self.new n) ≡ true }
        ensures ticks { steps.new ≤ steps.old + work (bodies_of self.old) (cells_of self.old) list.now }
    {
        for at in (0..list.len()).rev() {
            self.freshen(list[at], steps);
        }
    }

    // Finds the cell of the quantity, where it has none.
    fn freshen<L: Ledger>(&mut self, id: Id, steps: &mut Steps<L>)
        requires placed { is_some (bodies_of self.old id) ≡ true }
        requires ready { are_found (cells_of self.old) (uses_of (bodies_of self.old id)) ≡ true }
        ensures bodies { (n : ℕ) → bodies_of self.new n ≡ bodies_of self.old n }
        ensures kept { AreKept (cells_of self.old) (cells_of self.new) }
        ensures others { (n : ℕ) → nat_eq n id ≡ false → cells_of self.new n ≡ cells_of self.old n }
        ensures found { is_some (cells_of self.new id) ≡ true }
        ensures ticks { steps.new ≤ steps.old + work (bodies_of self.old) (cells_of self.old) (id ∷ []) }
    {
        if self.peek(id).is_some() {
            return;
        }
        let cell = self.work_out(id, steps);
        self.keep(id, cell);
    }

    // Keeps the cell of a quantity that had none.
    fn keep(&mut self, id: Id, cell: Evaluation<Id>)
        requires placed { is_some (bodies_of self.old id) ≡ true }
        requires none { cells_of self.old id ≡ None }
        requires right { cell_by (cells_of self.old) id (bodies_of self.old id) ≡ Some cell }
        ensures bodies { (n : ℕ) → bodies_of self.new n ≡ bodies_of self.old n }
        ensures cells { (n : ℕ) → cells_of self.new n ≡ (if nat_eq n id then Some cell else cells_of self.old n) }
    {
        write(&mut self.slots, id, cell);
    }

    // The cell that the quantity's body gives, where all that it uses has cells.
    fn work_out<L: Ledger>(&self, id: Id, steps: &mut Steps<L>) -> Evaluation<Id>
        requires placed { is_some (bodies_of self.now id) ≡ true }
        requires ready { are_found (cells_of self.now) (uses_of (bodies_of self.now id)) ≡ true }
        ensures cell { cell_by (cells_of self.now) id (bodies_of self.now id) ≡ Some result }
        ensures ticks { steps.new ≤ steps.old + cost_of (bodies_of self.now id) }
    {
        match self.body(id) {
            Body::Point(estimate) => Evaluation::Enclosed(point(*estimate, steps)),
            Body::Column(readings, column) => Evaluation::Enclosed(readings.mean(*column, steps)),
            Body::Formula {
                formula,
                names,
                ids,
            } => self.evaluate(id, formula, names, ids, steps),
        }
    }

    // The evaluation of the formula of `row`: where a quantity that it uses has no span, the fault of the first that
    // has one.
    fn evaluate<L: Ledger>(
        &self,
        row: Id,
        formula: &Formula,
        names: &NameList,
        ids: &IdList,
        steps: &mut Steps<L>,
    ) -> Evaluation<Id>
        requires numbered { IsNumbered (tree_of formula.now) names.now ids.now }
        requires ready { are_found (cells_of self.now) (map (key_by names.now ids.now) (uses (tree_of formula.now))) ≡ true }
        ensures value { evaluation_of_formula (λ n. cells_of self.now (key_by names.now ids.now n)) row (tree_of formula.now) ≡ Some result }
        ensures ticks { steps.new ≤ steps.old + value_cost (tree_of formula.now) }
    {
        let env = Through {
            names,
            ids,
            cache: self,
        };
        match eval(formula, &env, steps) {
            Ok(span) => Evaluation::Enclosed(span),
            Err(EvalFault::Arith(fault)) => Evaluation::Fault(fault, row),
            Err(EvalFault::NoValue(_)) => self.first_fault(ids).unwrap(),
        }
    }

    // The fault of the first of these quantities that has one.
    fn first_fault(&self, ids: &IdList) -> Option<Evaluation<Id>>
        ensures { result ≡ fault_among (cells_of self.now) ids.now }
    {
        for id in ids.as_slice() {
            if let Some(fault) = self.fault_of(*id) {
                return Some(fault);
            }
        }
        None
    }

    // The fault of the quantity, where it has one.
    fn fault_of(&self, id: Id) -> Option<Evaluation<Id>>
        ensures { result ≡ fault_of (cells_of self.now) id }
    {
        let cell = self.peek(id)?;
        if !cell.is_fault() {
            return None;
        }
        Some(cell)
    }
}

// Writes the cell of a quantity.
fn write(slots: &mut IndexMap<Id, Slot>, id: Id, cell: Evaluation<Id>)
    ensures bodies { (n : ℕ) → body_at slots.new.entries n ≡ body_at slots.old.entries n }
    ensures cells { is_some (bodies_of slots.old.entries id) ≡ true → (n : ℕ) → cells_of slots.new.entries n ≡ (if nat_eq n id then Some cell else cells_of slots.old.entries n) }
{
    if let Some(slot) = slots.get_mut(&id) {
        slot.cell = Some(cell);
    }
}
