ghost use Rattle.std.specs.Prelude.{◌≡◌, ◌↔◌, ℕ, List, [], ◌∷◌, true};
ghost use Rattle.dep_graph.specs.Nodes.{Node, AreOnce, has, ids_of, uses_in, users_in};
ghost use Rattle.dep_graph.specs.Reaching.{Reaches, DependsOn, IsCone, AreDependents};
ghost use Rattle.dep_graph.specs.Worked.{diamond};

/// The users of a node are those that use it, and what is reached over users is what depends on the node.
pub fn users_are_those_that_use()
    ensures direct { (nodes : List Node) → AreOnce nodes → (y n : ℕ) → (has (users_in nodes n) y ≡ true) ↔ (has (uses_in nodes y) n ≡ true) }
    ensures reached { (nodes : List Node) → AreOnce nodes → (y n : ℕ) → Reaches (users_in nodes) n y ↔ DependsOn nodes y n }
{}

/// A node has one cone: the definition leaves no choice of the list.
pub fn cones_are_lists()
    ensures { (nodes : List Node) (y : ℕ) (found other : List ℕ) → IsCone nodes y found → IsCone nodes y other → found ≡ other }
{}

/// A node has one list of dependents.
pub fn dependents_are_lists()
    ensures { (nodes : List Node) (n : ℕ) (found other : List ℕ) → AreDependents nodes n found → AreDependents nodes n other → found ≡ other }
{}

/// Of the worked graph: 5 and 9 use 8, and 2 uses both.
pub fn worked_diamond()
    ensures order { ids_of diamond ≡ 8 ∷ 5 ∷ 9 ∷ 2 ∷ [] }
    ensures uses { uses_in diamond 2 ≡ 5 ∷ 9 ∷ 5 ∷ [] }
    ensures uses_of_none { uses_in diamond 7 ≡ [] }
    ensures users { users_in diamond 8 ≡ 5 ∷ 9 ∷ [] }
    ensures users_once { users_in diamond 5 ≡ 2 ∷ [] }
    ensures cone { IsCone diamond 2 (2 ∷ 9 ∷ 5 ∷ 8 ∷ []) }
    ensures dependents { AreDependents diamond 8 (5 ∷ 9 ∷ 2 ∷ []) }
{}
