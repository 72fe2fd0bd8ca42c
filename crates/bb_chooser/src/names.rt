ghost use Rattle.std.specs.Prelude.{◌≡◌, ◌++◌, ◌∷◌, [], not, length, IfOk, slice_get};
ghost use Rattle.std.specs.Prelude.{if◌then◌else◌};
ghost use Rattle.std.specs.List.{list_any};
ghost use Rattle.std.specs.Option.{option_copied};
ghost use Rattle.std.specs.Str.{bytes_eq};
ghost use Rattle.bb_chooser.specs.Values.{NamesDiffer};

use bb_base::NoMemory;
use indexmap::IndexSet;
use std::alloc::Global;
use std::marker::Model;

/// Names that differ, in the order in which they were added. Clauses see the list.
#[derive(Drop)]
pub(crate) struct Names {
    alloc: Global,
    inner: IndexSet<String>,
}

impl Model for Names {
    ghost use Rattle.std.specs.Prelude.{List, ℕ, map};
    ghost use Rattle.std.specs.String.{string_bytes};
    ghost use Rattle.bb_chooser.specs.Values.{NamesDiffer};

    ghost Value = { List (List ℕ) };

    ghost view = { λ n. map string_bytes n.inner.keys };

    ghost invariant = { λ n. NamesDiffer (map string_bytes n.inner.keys) };
}

impl Names {
    /// No names.
    pub(crate) fn none(alloc: Global) -> Names
        ensures { result ≡ [] }
    {
        Names {
            alloc,
            inner: IndexSet::new(alloc),
        }
    }

    /// Appends a name that isn't there yet. The answer says whether it wasn't.
    pub(crate) fn add(&mut self, name: &str) -> Result<bool, NoMemory>
        ensures added { IfOk result (λ added. added ≡ not (list_any (bytes_eq name.now) self.old)) }
        ensures names { IfOk result (λ added.
            self.new ≡ (if added then self.old ++ name.now ∷ [] else self.old)) }
        ensures differ { NamesDiffer self.new }
    {
        let name = String::from_str(self.alloc, name)?;
        let added = self.inner.insert(name)?;
        Ok(added)
    }

    pub(crate) fn len(&self) -> usize
        ensures value { result ≡ length self.now }
        ensures differ { NamesDiffer self.now }
    {
        self.inner.len()
    }

    /// The name at a place, `None` exactly from the length on.
    pub(crate) fn get(&self, place: usize) -> Option<&str>
        ensures { option_copied result ≡ slice_get self.now place }
    {
        self.inner.get_index(place).map(|name| name.as_str())
    }
}
