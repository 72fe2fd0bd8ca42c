ghost use Rattle.std.specs.Prelude.{◌≡◌, ◌==◌, ◌++◌, ◌∷◌, [], length, OnOk, OnErr, slice_get};
ghost use Rattle.std.specs.Option.{option_copied};
ghost use Rattle.std.specs.String.{string_bytes};
ghost use Rattle.bb_layout.specs.VarNames.{place_of_var, with_place};
ghost use Rattle.bb_tree.specs.Texts.{texts_in};

use crate::Var;
use bb_base::NoMemory;
use indexmap::IndexMap;
use std::alloc::Global;
use std::marker::Model;

/// A list of variables that grows at its end, and in which a name is looked up at once. Clauses see
/// the list.
#[derive(Drop)]
pub struct VarList {
    alloc: Global,
    inner: Vec<Var>,
    // where the first variable of each name is
    places: IndexMap<String, usize>,
}

impl Model for VarList {
    ghost use Rattle.std.specs.Prelude.{List};
    ghost use Rattle.bb_layout.specs.declared.var.Var.{Var};
    ghost use Rattle.bb_layout.specs.VarNames.{AreFirstPlaces};
    ghost use Rattle.bb_tree.specs.Texts.{texts_in};

    ghost Value = { List Var };

    ghost view = { λ t. t.inner.items };

    ghost invariant = { λ t. AreFirstPlaces t.inner.items (texts_in t.places.entries) };
}

impl VarList {
    /// No variables.
    pub fn none(alloc: Global) -> VarList
        ensures { result ≡ [] }
    {
        VarList {
            alloc,
            inner: Vec::new(alloc),
            places: IndexMap::new(alloc),
        }
    }

    /// Appends the variable. It is dropped where memory is refused.
    pub fn push(&mut self, var: Var) -> Result<(), NoMemory>
        ensures ok { OnOk result (self.new ≡ self.old ++ var ∷ []) }
        ensures err { OnErr result (self.new ≡ self.old) }
    {
        let key = String::from_str(self.alloc, var.name.as_str())?;
        let place = self.inner.len();
        self.inner.push(var)?;
        if note(&mut self.places, key, place).is_err() {
            let _ = self.inner.pop();
            return Err(NoMemory);
        }
        Ok(())
    }

    pub fn len(&self) -> usize
        ensures { result ≡ length self.now }
    {
        self.inner.len()
    }

    pub fn is_empty(&self) -> bool
        ensures { result ≡ (length self.now == 0) }
    {
        self.inner.is_empty()
    }

    /// The variable at a place, `None` exactly from the length on.
    pub fn get(&self, place: usize) -> Option<&Var>
        ensures { option_copied result ≡ slice_get self.now place }
    {
        self.inner.get(place)
    }

    /// The variables, to go through them.
    pub fn as_slice(&self) -> &[Var]
        ensures { result.now ≡ self.now }
    {
        self.inner.as_slice()
    }

    /// The place of the first variable of that name.
    pub fn find(&self, name: &str) -> Option<usize>
        ensures { result ≡ place_of_var self.now name.now }
    {
        self.places.get(name).copied()
    }
}

// Notes where a name is, unless it is noted already.
fn note(places: &mut IndexMap<String, usize>, name: String, place: usize) -> Result<(), NoMemory>
    ensures ok { OnOk result (texts_in places.new.entries
        ≡ with_place (texts_in places.old.entries) (string_bytes name) place) }
    ensures err { OnErr result (texts_in places.new.entries ≡ texts_in places.old.entries) }
{
    if places.get(name.as_str()).is_none() {
        let _ = places.insert(name, place)?;
    }
    Ok(())
}
