ghost use Rattle.std.specs.Prelude.{◌≡◌, ◌≤◌, ℕ, [], true, false, nat_eq, not, ◌&&◌, filter, if◌then◌else◌, insert, length, map, take, Ok, IfOk, OnOk, OnErr};
ghost use Rattle.indexmap.specs.IndexSet.{insert_all};
ghost use Rattle.dep_graph.specs.Nodes.{AreOnce, has, ids_of, uses_in, users_in};
ghost use Rattle.dep_graph.specs.Reaching.{IsClosure, IsCone, AreDependents, next_in};
ghost use Rattle.dep_graph.specs.Views.{nodes_of, users_at, extended, written, given};

use crate::id::Id;
use crate::id_list::IdList;
use crate::way::Way;
use indexmap::{IndexMap, IndexSet};
use line_text::OutOfMemory;
use smallvec::SmallVec;
use std::alloc::Global;
use std::marker::Model;

// Few nodes use more than four others.
type Ids = SmallVec<Id, 4>;

// What a node uses, and what uses it.
#[derive(Drop)]
struct Edges {
    uses: Ids,
    users: Ids,
}

/// Nodes in order, each with the nodes that it uses.
///
/// A node takes its place by `add_node`, and its number says nothing of it.
#[derive(Drop)]
pub struct Graph {
    alloc: Global,
    nodes: IndexMap<Id, Edges>,
}

impl Model for Graph {
    ghost use Rattle.std.specs.Prelude.{List};
    ghost use Rattle.dep_graph.specs.Nodes.{Node};
    ghost use Rattle.dep_graph.specs.Views.{nodes_of, IsGraph};

    ghost Value = { List Node };

    ghost view = { λ graph. nodes_of graph.nodes.entries };

    ghost invariant = { λ graph. IsGraph graph.nodes.entries };
}

impl Graph {
    /// The graph without nodes. It takes no memory yet, so this is always `Ok`.
    ///
    /// # Errors
    ///
    /// None: the result has the form of the other calls that take an allocator.
    pub fn new(alloc: Global) -> Result<Graph, OutOfMemory>
        ensures { result ≡ Ok [] }
    {
        Ok(Graph {
            alloc,
            nodes: IndexMap::new(alloc),
        })
    }

    /// The nodes in order.
    pub fn order(&self) -> &[Id]
        ensures { result.now ≡ ids_of self.now }
    {
        self.nodes.keys().as_slice()
    }

    /// What the node uses, as it was given to `add_node`.
    pub fn uses(&self, id: Id) -> &[Id]
        requires { has (ids_of self.now) id ≡ true }
        ensures { result.now ≡ uses_in self.now id }
    {
        self.nodes.get(&id).unwrap().uses.as_slice()
    }

    /// The nodes that use the node directly, each once, in order.
    pub fn users(&self, id: Id) -> &[Id]
        requires { has (ids_of self.now) id ≡ true }
        ensures { result.now ≡ users_in self.now id }
    {
        self.nodes.get(&id).unwrap().users.as_slice()
    }

    /// Adds a node at the place `at`, after which the others move up, with the nodes that it uses.
    ///
    /// It takes time of the lists of users of the nodes that are used, and of the nodes after the place.
    ///
    /// # Errors
    ///
    /// [`OutOfMemory`] where there is no memory for it; the graph stays as it was.
    pub fn add_node(&mut self, at: usize, id: Id, uses: &[Id]) -> Result<(), OutOfMemory>
        requires new { has (ids_of self.old) id ≡ false }
        requires place { at ≤ length self.old }
        requires used { (n : ℕ) → has uses.now n ≡ true → has (ids_of self.old) n ≡ true }
        ensures ok { OnOk result (self.new ≡ insert self.old at (record { id = id; uses = uses.now })) }
        ensures err { OnErr result (self.new ≡ self.old) }
    {
        // all that may fail comes first
        let lists = self.extended_users(at, id, uses)?;
        let edges = Edges {
            uses: SmallVec::from_slice(self.alloc, uses)?,
            users: SmallVec::new(self.alloc),
        };
        self.nodes.shift_insert(at, id, edges)?;
        write_users(&mut self.nodes, lists);
        Ok(())
    }

    // For each of these nodes its users, once a node at this place uses it.
    fn extended_users(&self, at: usize, id: Id, uses: &[Id]) -> Result<Vec<(Id, Ids)>, OutOfMemory>
        requires used { (n : ℕ) → has uses.now n ≡ true → has (ids_of self.now) n ≡ true }
        ensures { IfOk result (λ lists. map written lists.items ≡ map (λ n. (n, extended self.now at id n)) uses.now) }
    {
        let mut lists = Vec::new(self.alloc);
        for used in uses {
            let users = self.extended(at, id, *used)?;
            lists.push((*used, users))?;
        }
        Ok(lists)
    }

    // The users of the node `used`, once a node at this place uses it.
    fn extended(&self, at: usize, id: Id, used: Id) -> Result<Ids, OutOfMemory>
        requires there { has (ids_of self.now) used ≡ true }
        ensures { IfOk result (λ users. users.items ≡ extended self.now at id used) }
    {
        let mut users = SmallVec::from_slice(self.alloc, self.users(used))?;
        users.insert(self.count_before(used, at), id)?;
        Ok(users)
    }

    // How many of the node's users are among the first `at` nodes.
    fn count_before(&self, id: Id, at: usize) -> usize
        requires there { has (ids_of self.now) id ≡ true }
        ensures { result ≡ length (users_in (take at self.now) id) }
    {
        if at == self.nodes.len() {
            return self.users(id).len();
        }
        let mut count = 0;
        for user in self.users(id) {
            if self.is_before(*user, at) {
                count += 1;
            }
        }
        count
    }

    // Whether the node is among the first `at`.
    fn is_before(&self, id: Id, at: usize) -> bool
        ensures { result ≡ has (ids_of (take at self.now)) id }
    {
        match self.nodes.get_index_of(&id) {
            Some(place) => place < at,
            None => false,
        }
    }

    /// The cone of the node: it and all that it depends on, directly or through others, each once, the last
    /// in order first.
    ///
    /// It takes time of the cone with what its nodes use, and of a walk over all nodes with one look-up each.
    ///
    /// # Errors
    ///
    /// [`OutOfMemory`] where there is no memory for the search or the list.
    pub fn cone(&self, id: Id) -> Result<IdList, OutOfMemory>
        requires there { has (ids_of self.now) id ≡ true }
        ensures { IfOk result (λ list. IsCone self.now id list) }
    {
        let found = self.reach(id, Way::Uses)?;
        let mut list = self.found_in_order(&found)?;
        list.reverse();
        Ok(list)
    }

    // Those of the nodes that are found, in order.
    fn found_in_order(&self, found: &IndexSet<Id>) -> Result<IdList, OutOfMemory>
        ensures { IfOk result (λ list. list ≡ filter (has found.now.keys) (ids_of self.now)) }
    {
        let mut list = IdList::new(self.alloc)?;
        for id in self.order() {
            if found.contains(id) {
                list.push(*id)?;
            }
        }
        Ok(list)
    }

    /// The dependents of the node: all others that depend on it, directly or through others, each once, in
    /// order.
    ///
    /// It takes time of the dependents with their users, and of a walk over all nodes with one look-up each.
    ///
    /// # Errors
    ///
    /// [`OutOfMemory`] where there is no memory for the search or the list.
    pub fn dependents(&self, id: Id) -> Result<IdList, OutOfMemory>
        requires there { has (ids_of self.now) id ≡ true }
        ensures { IfOk result (λ list. AreDependents self.now id list) }
    {
        let found = self.reach(id, Way::Users)?;
        self.others_in_order(&found, id)
    }

    // Those of the nodes but this one that are found, in order.
    fn others_in_order(&self, found: &IndexSet<Id>, but: Id) -> Result<IdList, OutOfMemory>
        ensures { IfOk result (λ list. list ≡ filter (λ n. not (nat_eq n but) && has found.now.keys n) (ids_of self.now)) }
    {
        let mut list = IdList::new(self.alloc)?;
        for id in self.order() {
            if *id != but && found.contains(id) {
                list.push(*id)?;
            }
        }
        Ok(list)
    }

    // What can be reached from the node, this way: each is looked at once.
    fn reach(&self, id: Id, way: Way) -> Result<IndexSet<Id>, OutOfMemory>
        requires there { has (ids_of self.now) id ≡ true }
        ensures closure { IfOk result (λ found. IsClosure (next_in way self.now) id found.keys) }
        ensures within { IfOk result (λ found. (n : ℕ) → has found.keys n ≡ true → has (ids_of self.now) n ≡ true) }
        ensures once { AreOnce self.now }
    {
        let mut found = IndexSet::new(self.alloc);
        found.insert(id)?;
        let mut at = 0;
        while at < found.len() {
            let here = found.as_slice()[at];
            self.add_next(here, way, &mut found)?;
            at += 1;
        }
        Ok(found)
    }

    // Puts what is next to the node, this way, after what is found, if it is not found yet.
    fn add_next(&self, id: Id, way: Way, found: &mut IndexSet<Id>) -> Result<(), OutOfMemory>
        requires there { has (ids_of self.now) id ≡ true }
        ensures { OnOk result (found.new.keys ≡ insert_all nat_eq found.old.keys (next_in way self.now id)) }
    {
        for next in self.next(id, way) {
            found.insert(*next)?;
        }
        Ok(())
    }

    // What is next to the node, this way.
    fn next(&self, id: Id, way: Way) -> &[Id]
        requires { has (ids_of self.now) id ≡ true }
        ensures { result.now ≡ next_in way self.now id }
    {
        match way {
            Way::Uses => self.uses(id),
            Way::Users => self.users(id),
        }
    }
}

// Gives nodes new lists of users. It takes no memory.
fn write_users(nodes: &mut IndexMap<Id, Edges>, mut lists: Vec<(Id, Ids)>)
    requires there { (n : ℕ) → has (map (λ list. list.0) lists.items) n ≡ true → has (ids_of (nodes_of nodes.old.entries)) n ≡ true }
    ensures nodes { nodes_of nodes.new.entries ≡ nodes_of nodes.old.entries }
    ensures users { (n : ℕ) → users_at nodes.new.entries n ≡ given (map written lists.items) (users_at nodes.old.entries) n }
{
    while let Some(list) = lists.pop() {
        write(nodes, list.0, list.1);
    }
}

// Gives a node a new list of users.
fn write(nodes: &mut IndexMap<Id, Edges>, id: Id, users: Ids)
    requires there { has (ids_of (nodes_of nodes.old.entries)) id ≡ true }
    ensures nodes { nodes_of nodes.new.entries ≡ nodes_of nodes.old.entries }
    ensures users { (n : ℕ) → users_at nodes.new.entries n ≡ (if nat_eq n id then users.items else users_at nodes.old.entries n) }
{
    if let Some(edges) = nodes.get_mut(&id) {
        edges.users = users;
    }
}
