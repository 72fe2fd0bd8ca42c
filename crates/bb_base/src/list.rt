ghost use Rattle.std.specs.Prelude.{◌≡◌, ◌==◌, ◌++◌, ◌∷◌, [], length, IfOk, OnOk, OnErr, slice_get};
ghost use Rattle.std.specs.Option.{option_copied};

use crate::NoMemory;
use std::alloc::Global;
use std::marker::Model;

/// A list that owns its items and grows at its end. Clauses see the list of what they see of each
/// item, so two lists of the same items are equal.
#[derive(Debug, Drop)]
pub struct List<T> {
    inner: Vec<T>,
}

impl<T> Model for List<T> {
    ghost use Rattle.std.specs.Prelude.{List as Seq};

    ghost Value = { Seq T };

    ghost view = { λ list. list.inner.items };
}

impl<T> List<T> {
    /// No items.
    pub fn none(alloc: Global) -> List<T>
        ensures { result ≡ [] }
    {
        List {
            inner: Vec::new(alloc),
        }
    }

    /// No items, with room for so many.
    pub fn with_room(alloc: Global, room: usize) -> Result<List<T>, NoMemory>
        ensures { IfOk result (λ list. list ≡ []) }
    {
        let inner = Vec::with_capacity(alloc, room)?;
        Ok(List { inner })
    }

    pub fn len(&self) -> usize
        ensures { result ≡ length self.now }
    {
        self.inner.len()
    }

    pub fn is_empty(&self) -> bool
        ensures { result ≡ (length self.now == 0) }
    {
        self.inner.is_empty()
    }

    /// The item at a place, `None` exactly from the length on.
    pub fn get(&self, place: usize) -> Option<&T>
        ensures { option_copied result ≡ slice_get self.now place }
    {
        self.inner.get(place)
    }

    /// The items, to go through them.
    pub fn as_slice(&self) -> &[T]
        ensures { result.now ≡ self.now }
    {
        self.inner.as_slice()
    }

    /// The items, to be moved out one by one.
    pub fn into_inner(self) -> Vec<T>
        ensures { result.items ≡ self }
    {
        let List { inner } = self;
        inner
    }
}

impl<T: Drop> List<T> {
    /// Appends the item. It is dropped where memory is refused.
    pub fn push(&mut self, item: T) -> Result<(), NoMemory>
        ensures ok { OnOk result (self.new ≡ self.old ++ item ∷ []) }
        ensures err { OnErr result (self.new ≡ self.old) }
    {
        // many lists have one item
        if self.inner.is_empty() {
            self.inner.reserve_exact(1)?;
        }
        self.inner.push(item)?;
        Ok(())
    }

    /// Appends all items of another list, which are dropped where memory is refused.
    pub fn append(&mut self, more: List<T>) -> Result<(), NoMemory>
        ensures ok { OnOk result (self.new ≡ self.old ++ more) }
        ensures err { OnErr result (self.new ≡ self.old) }
    {
        let List { mut inner } = more;
        self.inner.append(&mut inner)?;
        Ok(())
    }
}
