ghost use Rattle.std.specs.Prelude.{◌≡◌, ◌<◌, ◌∷◌, [], OnErr, OnOk, Some, length, slice_get};

use bb_base::NoMemory;
use std::alloc::Global;
use std::marker::Model;

/// How many pages of a block there are up to the end of an entry, for each entry that was found,
/// oldest first. They are found from the newest one on. Clauses see the list.
#[derive(Debug, Drop)]
pub(crate) struct Places {
    // in the order in which they were found
    found: Vec<u32>,
}

impl Model for Places {
    ghost use Rattle.std.specs.Prelude.{List, ℕ, reverse};

    ghost Value = { List ℕ };

    ghost view = { λ places. reverse places.found.items };
}

impl Places {
    /// No places.
    pub(crate) fn none(alloc: Global) -> Places
        ensures { result ≡ [] }
    {
        Places {
            found: Vec::new(alloc),
        }
    }

    /// Takes one that is older than all others.
    pub(crate) fn push(&mut self, place: u32) -> Result<(), NoMemory>
        ensures ok { OnOk result (self.new ≡ place ∷ self.old) }
        ensures err { OnErr result (self.new ≡ self.old) }
    {
        self.found.push(place)?;
        Ok(())
    }

    pub(crate) fn len(&self) -> usize
        ensures { result ≡ length self.now }
    {
        self.found.len()
    }

    /// The place of the entry of this number, from 0.
    pub(crate) fn at(&self, number: usize) -> u32
        requires { number < length self.now }
        ensures { slice_get self.now number ≡ Some result }
    {
        let count = self.found.len();
        let last = count - 1;
        let place = last - number;
        self.found[place]
    }
}
