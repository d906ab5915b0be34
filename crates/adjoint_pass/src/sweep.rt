ghost use Rattle.std.specs.Prelude.{◌≡◌, ◌≢◌, ◌↔◌, ℕ, ◌+◌, ◌≤◌, true, false, nat_eq, if◌then◌else◌, List, [], ◌∷◌, reverse, Some, Err, is_some, sum_by, IfOk, OnOk};
ghost use Rattle.std.specs.Option.{ok_or};
ghost use Rattle.dep_graph.specs.Nodes.{has, ids_of};
ghost use Rattle.dep_graph.specs.Reaching.{IsCone};
ghost use Rattle.fixed_interval.specs.Sums.{sum_of, Continues};
ghost use Rattle.formula_ast.specs.Views.{tree_of};
ghost use Rattle.formula_box.specs.Costs.{partial_cost};
ghost use Rattle.formula_box.specs.Slopes.{there, partial_of};
ghost use Rattle.covariance.specs.Gradients.{found_at};
ghost use Rattle.value_cache.specs.Quantities.{Function};
ghost use Rattle.value_cache.specs.Evaluations.{span_in};
ghost use Rattle.value_cache.specs.Rules.{AreRight, IsGraphOf, numbered};
ghost use Rattle.value_cache.specs.Slots.{bodies_of, cells_of, key_by, span_through, IsNumbered};
ghost use Rattle.value_cache.specs.declared.evaluation.Evaluation.TheVariants.{Fault};
ghost use Rattle.adjoint_pass.specs.Sensitivities.{part_of, has_gradient, gradient_of};
ghost use Rattle.adjoint_pass.specs.Costs.{part_cost, term_cost, gradient_cost};
ghost use Rattle.adjoint_pass.specs.Gathering.{name_beside, part_at, term_at, found_among, gathered, next_sensitivity, next_cost};

use crate::fault::GradFault;
use covariance::Gradient;
use decimal18::Dec;
use dep_graph::{Graph, Id, cones_are_lists};
use fixed_interval::{ArithFault, Overflow, Span, Steps, mul, point, with_term, zero};
use formula_ast::{Formula, Name};
use formula_box::{partial, partial_where_defined};
use std::alloc::Global;
use std::sync::ledger::Ledger;
use value_cache::{Body, Cache, Evaluation, Through};

// The first of the names beside which the quantity stands.
fn name_beside(names: &[Name], ids: &[Id], n: Id) -> Option<Name>
    ensures { result ≡ name_beside names.now ids.now n }
{
    for (at, id) in ids.iter().enumerate() {
        if *id == n {
            return names.get(at).copied();
        }
    }
    None
}

// Whether the quantity has a span.
fn has_span(cache: &Cache, m: Id) -> bool
    ensures span { result ≡ is_some (span_in (cells_of cache.now m)) }
    ensures right { AreRight (bodies_of cache.now) (cells_of cache.now) }
{
    let Some(evaluation) = cache.peek(m) else {
        return false;
    };
    evaluation.span().is_some()
}

// The partial derivative of the formula of `m` by one of its names. Where `m` has a span its formula has a value, which
// is not found again.
fn partial_by<L: Ledger>(
    formula: &Formula,
    name: &Name,
    through: &Through,
    m: Id,
    steps: &mut Steps<L>,
) -> Result<Span, Overflow>
    requires numbered { IsNumbered (tree_of formula.now) through.now.names.now through.now.ids.now }
    requires row { bodies_of through.now.cache.now m ≡ Some (Function (tree_of formula.now) (key_by through.now.names.now through.now.ids.now)) }
    ensures span { result ≡ ok_or (there (partial_of (λ k. span_through through.now.names.now through.now.ids.now (cells_of through.now.cache.now) k) name.now (tree_of formula.now))) (record {}) }
    ensures ticks { steps.new ≤ steps.old + partial_cost (tree_of formula.now) }
{
    if has_span(through.cache, m) {
        return partial_where_defined(formula, name, through, steps);
    }
    let Ok(part) = partial(formula, name, through, steps) else {
        return Err(Overflow);
    };
    Ok(part)
}

// The partial derivative of the formula of `m` by a quantity, where one of its names stands for that.
fn formula_part<L: Ledger>(
    formula: &Formula,
    through: &Through,
    m: Id,
    n: Id,
    steps: &mut Steps<L>,
) -> Result<Span, Overflow>
    requires numbered { IsNumbered (tree_of formula.now) through.now.names.now through.now.ids.now }
    requires row { bodies_of through.now.cache.now m ≡ Some (Function (tree_of formula.now) (key_by through.now.names.now through.now.ids.now)) }
    ensures span { result ≡ ok_or (part_of nat_eq (λ k. span_in (cells_of through.now.cache.now k)) (Function (tree_of formula.now) (key_by through.now.names.now through.now.ids.now)) n) (record {}) }
    ensures ticks { steps.new ≤ steps.old + partial_cost (tree_of formula.now) }
{
    let Some(name) = name_beside(through.names.as_slice(), through.ids.as_slice(), n) else {
        return Ok(zero());
    };
    partial_by(formula, &name, through, m, steps)
}

// The partial derivative of the row of `m` by the quantity `n`.
fn part<L: Ledger>(cache: &Cache, m: Id, n: Id, steps: &mut Steps<L>) -> Result<Span, Overflow>
    requires placed { is_some (bodies_of cache.now m) ≡ true }
    ensures span { result ≡ ok_or (part_at (bodies_of cache.now) (cells_of cache.now) m n) (record {}) }
    ensures ticks { steps.new ≤ steps.old + part_cost (bodies_of cache.now m) }
{
    match cache.body(m) {
        Body::Formula {
            formula,
            names,
            ids,
        } => {
            let through = Through { names, ids, cache };
            formula_part(formula, &through, m, n, steps)
        }
        Body::Point(_) | Body::Column(..) => Ok(zero()),
    }
}

// The sensitivity to `m` times the partial derivative of its row by `n`.
fn term<L: Ledger>(
    cache: &Cache,
    found: &Gradient,
    m: Id,
    n: Id,
    steps: &mut Steps<L>,
) -> Result<Span, Overflow>
    requires placed { is_some (bodies_of cache.now m) ≡ true }
    ensures span { result ≡ ok_or (term_at (bodies_of cache.now) (cells_of cache.now) (found_at found.now) n m) (record {}) }
    ensures ticks { steps.new ≤ steps.old + (part_cost (bodies_of cache.now m) + 1) }
{
    let part = part(cache, m, n, steps)?;
    mul(&found.at(m), &part, steps)
}

// The sum with what `m` brings to `n` more, where its own sensitivity is found.
fn with_user<L: Ledger>(
    sum: Option<Span>,
    cache: &Cache,
    found: &Gradient,
    m: Id,
    n: Id,
    steps: &mut Steps<L>,
) -> Result<Option<Span>, Overflow>
    requires placed { is_some (bodies_of cache.now m) ≡ true }
    ensures sum { Continues sum (gathered (bodies_of cache.now) (cells_of cache.now) (found_at found.now) n (m ∷ [])) result }
    ensures ticks { steps.new ≤ steps.old + sum_by (λ k. term_cost (bodies_of cache.now k)) (found_among (found_at found.now) (m ∷ [])) }
{
    if !found.has(m) {
        return Ok(sum);
    }
    let term = term(cache, found, m, n, steps)?;
    with_term(sum, &term, steps)
}

// What these users bring to `n`, the last first.
fn brought<L: Ledger>(
    users: &[Id],
    cache: &Cache,
    found: &Gradient,
    n: Id,
    steps: &mut Steps<L>,
) -> Result<Span, Overflow>
    requires placed { (m : ℕ) → has users.now m ≡ true → is_some (bodies_of cache.now m) ≡ true }
    ensures span { result ≡ ok_or (sum_of (gathered (bodies_of cache.now) (cells_of cache.now) (found_at found.now) n (reverse users.now))) (record {}) }
    ensures ticks { steps.new ≤ steps.old + sum_by (λ m. term_cost (bodies_of cache.now m)) (found_among (found_at found.now) (reverse users.now)) }
{
    let mut sum = None;
    for at in (0..users.len()).rev() {
        sum = with_user(sum, cache, found, users[at], n, steps)?;
    }
    Ok(sum.unwrap_or(zero()))
}

// The sensitivity of `y` to `n`, from those of the users of `n` that are found.
fn next_sensitivity<L: Ledger>(
    graph: &Graph,
    cache: &Cache,
    y: Id,
    found: &Gradient,
    n: Id,
    steps: &mut Steps<L>,
) -> Result<Span, Overflow>
    requires graph { IsGraphOf graph.now (bodies_of cache.now) }
    requires there { has (ids_of graph.now) n ≡ true }
    ensures span { result ≡ ok_or (next_sensitivity graph.now (bodies_of cache.now) (cells_of cache.now) y (found_at found.now) n) (record {}) }
    ensures ticks { steps.new ≤ steps.old + next_cost graph.now (bodies_of cache.now) y (found_at found.now) n }
{
    if n == y {
        return Ok(point(Dec::whole(1), steps));
    }
    brought(graph.users(n), cache, found, n, steps)
}

// The sensitivities of `y` to the quantities of its cone, each after those of its users.
fn sweep<L: Ledger>(
    alloc: Global,
    graph: &Graph,
    cache: &Cache,
    y: Id,
    cone: &[Id],
    steps: &mut Steps<L>,
) -> Result<Gradient, GradFault>
    requires graph { IsGraphOf graph.now (bodies_of cache.now) }
    requires cone { IsCone graph.now y cone.now }
    requires right { AreRight (bodies_of cache.now) (cells_of cache.now) }
    requires fresh { is_some (cells_of cache.now y) ≡ true }
    ensures ok { IfOk result (λ g. (n : ℕ) → found_at g n ≡ gradient_of nat_eq (numbered (bodies_of cache.now) (ids_of graph.now)) y n) }
    ensures whole { OnOk result (has_gradient nat_eq (numbered (bodies_of cache.now) (ids_of graph.now)) y ≡ true) }
    ensures law { result ≡ Err GradFault.Law → has_gradient nat_eq (numbered (bodies_of cache.now) (ids_of graph.now)) y ≡ false }
    ensures value { (fault : ArithFault) (row : ℕ) → result ≢ Err (GradFault.Value fault row) }
    ensures ticks { steps.new ≤ steps.old + gradient_cost (bodies_of cache.now) cone.now }
{
    let mut found = Gradient::new(alloc)?;
    for n in cone {
        let Ok(a) = next_sensitivity(graph, cache, y, &found, *n, steps) else {
            return Err(GradFault::Law);
        };
        found.put(*n, a)?;
    }
    Ok(found)
}

/// The sensitivities of the quantity `y` (JCGM 100:2008, 5.1.3) to itself and to all on which it depends, as spans.
/// `graph` is that of the cache's bodies.
///
/// Each is the sum of what the quantity's users bring to it, so that rows are gone through from users to what they
/// use. Of a row, the partial derivatives by its several names are found one at a time, each with those values of the
/// row's parts again for which its rules ask: `gradient_cost` counts as if they asked for all.
///
/// # Errors
///
/// [`GradFault::Value`] exactly where the quantity has a fault in the place of its span: that fault. Otherwise
/// [`GradFault::Law`] only where an operation for one of the sensitivities leaves the range of bounds, where there is
/// never an answer, and [`GradFault::OutOfMemory`] where there is no memory for the cone or the answer.
pub fn gradient<L: Ledger>(
    alloc: Global,
    graph: &Graph,
    cache: &Cache,
    y: Id,
    steps: &mut Steps<L>,
) -> Result<Gradient, GradFault>
    requires graph { IsGraphOf graph.now (bodies_of cache.now) }
    requires there { has (ids_of graph.now) y ≡ true }
    requires fresh { is_some (cells_of cache.now y) ≡ true }
    ensures ok { IfOk result (λ g. (n : ℕ) → found_at g n ≡ gradient_of nat_eq (numbered (bodies_of cache.now) (ids_of graph.now)) y n) }
    ensures whole { OnOk result (has_gradient nat_eq (numbered (bodies_of cache.now) (ids_of graph.now)) y ≡ true) }
    ensures value { (fault : ArithFault) (row : ℕ) → (result ≡ Err (GradFault.Value fault row)) ↔ (cells_of cache.now y ≡ Some (Fault fault row)) }
    ensures law { result ≡ Err GradFault.Law → (is_some (span_in (cells_of cache.now y)) ≡ true) × (has_gradient nat_eq (numbered (bodies_of cache.now) (ids_of graph.now)) y ≡ false) }
    ensures ticks { (cone : List ℕ) → IsCone graph.now y cone → steps.new ≤ steps.old + gradient_cost (bodies_of cache.now) cone }
{
    if let Some(Evaluation::Fault(fault, row)) = cache.peek(y) {
        return Err(GradFault::Value(fault, row));
    }
    let cone = graph.cone(y)?;
    cones_are_lists();
    sweep(alloc, graph, cache, y, cone.as_slice(), steps)
}
