ghost use Rattle.std.specs.Prelude.{◌≡◌};
ghost use Rattle.value_cache.specs.Slots.{id_of};

use crate::cache::Cache;
use dep_graph::{Id, IdList};
use fixed_interval::Span;
use formula_ast::{Name, NameList};
use formula_box::Env;

/// The spans for which the names of a formula stand: those of quantities that have cells.
#[derive(Drop)]
pub struct Through<'a> {
    /// The names.
    pub names: &'a NameList,
    /// For each of them the quantity for which it stands.
    pub ids: &'a IdList,
    /// The quantities with their cells.
    pub cache: &'a Cache,
}

impl<'a> Env for Through<'a> {
    ghost use Rattle.value_cache.specs.Slots.{cells_of, span_through};

    ghost given = { λ through n. span_through through.names.now through.ids.now (cells_of through.cache.now) n };

    fn value(&self, name: &Name) -> Option<Span> {
        let id = number_of(self.names.as_slice(), self.ids.as_slice(), name)?;
        self.cache.peek(id)?.span()
    }
}

// The quantity for which the name stands.
fn number_of(names: &[Name], ids: &[Id], name: &Name) -> Option<Id>
    ensures { result ≡ id_of names.now ids.now name.now }
{
    for (at, other) in names.iter().enumerate() {
        if name == other {
            return ids.get(at).copied();
        }
    }
    None
}
