ghost use Rattle.std.specs.Prelude.{◌≡◌, ℕ, Bool, false, List, Some, bytes_eq, find, length, map, nat_eq, pos};
ghost use Rattle.dep_graph.specs.Nodes.{Node, ids_of};
ghost use Rattle.fixed_interval.specs.Interval.{Interval};
ghost use Rattle.formula_ast.specs.Trees.{distinct};
ghost use Rattle.type_a.specs.WorkedTables.{eleven, span};
ghost use Rattle.value_cache.specs.Quantities.{Quantity, body_of, is_there};
ghost use Rattle.value_cache.specs.Evaluations.{Found, evaluation_of};
ghost use Rattle.value_cache.specs.Model.{AllHaveExponents, HasValueIn};
ghost use Rattle.value_cache.specs.Rules.{Bodies, AreRight, IsGraphOf, numbered};
ghost use Rattle.value_cache.specs.WorkedQuantities.{five, mean_of, x_name};
ghost use Rattle.value_cache.specs.declared.evaluation.Evaluation.{Evaluation};
ghost use Rattle.value_cache.specs.declared.evaluation.Evaluation.TheVariants.{Enclosed};

/// Where a quantity has a span, its expanded formula has a value, and the span encloses it.
pub fn values_are_enclosed<K>()
    ensures { (same : K → K → Bool) (qs : List (Quantity K)) → AllHaveExponents qs → (n : K) (s : Interval)
        → evaluation_of same qs n ≡ Some (Enclosed s) → HasValueIn same qs n s }
{}

/// A key that is no quantity's has no value in any span.
pub fn unknown_has_no_value<K>()
    ensures { (same : K → K → Bool) (qs : List (Quantity K)) (n : K) (s : Interval)
        → is_there same qs n ≡ false → ¬ (HasValueIn same qs n s) }
{}

/// The order in which quantities are listed changes no evaluation: lists of one length that say the same
/// of each key give the same evaluations.
pub fn order_changes_nothing<K>()
    ensures { (same : K → K → Bool) (qs others : List (Quantity K)) → length qs ≡ length others
        → ((n : K) → body_of same qs n ≡ body_of same others n)
        → (n : K) → evaluation_of same qs n ≡ evaluation_of same others n }
{}

/// The first quantity with a property for which one of the names stands is the same among all uses and
/// among the distinct names.
pub fn distinct_names_find_the_same<K>()
    ensures { (p : K → Bool) (key : List ℕ → K) (ns : List (List ℕ))
        → find p (map key (distinct ns)) ≡ find p (map key ns) }
{}

/// A cell that is kept is the evaluation of its quantity among all quantities of the graph.
pub fn fresh_cells_are_evaluations()
    ensures { (nodes : List Node) (bodies : Bodies) (cells : Found ℕ) → IsGraphOf nodes bodies → AreRight bodies cells
        → (n : ℕ) (cell : Evaluation ℕ) → cells n ≡ Some cell → evaluation_of nat_eq (numbered bodies (ids_of nodes)) n ≡ Some cell }
{}

/// The means of two columns of readings: of 0.012, 0.010, 0.011, 0.013 and 0.009 it is 0.011, and of ten times
/// 1 and once 2 it is 12/11, rounded outwards.
pub fn worked_columns()
    ensures five { evaluation_of bytes_eq (mean_of five) x_name ≡ Some (Enclosed (span (pos 11) 3 (pos 11) 3)) }
    ensures eleven { evaluation_of bytes_eq (mean_of eleven) x_name
        ≡ Some (Enclosed (span (pos 10909090909090909) 16 (pos 109090909090909091) 17)) }
{}
