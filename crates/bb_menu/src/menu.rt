ghost use Rattle.std.specs.Prelude.{◌≡◌, ◌==◌, ◌++◌, ◌∷◌, [], IfOk, OnErr, OnOk, length};
ghost use Rattle.std.specs.Prelude.{slice_get};
ghost use Rattle.std.specs.List.Sorted.{IsPermutation};
ghost use Rattle.std.specs.Option.{option_copied, option_map};
ghost use Rattle.bb_menu.specs.Menu.{IsArranged, menu_label, menu_line, menu_text};
ghost use Rattle.bb_menu.specs.Order.{menu_cmp};

use crate::MenuItem;
use crate::order::compare_named;
use bb_base::{Bytes, NoMemory, Text};
use bb_bls::Entry;
use std::alloc::Global;
use std::cmp::Ordering;
use std::marker::Model;

/// The entries of a folder, in the order in which they stand in a menu. Clauses see the list.
#[derive(Debug, Drop)]
pub struct Menu {
    items: Vec<MenuItem>,
}

impl Model for Menu {
    ghost use Rattle.std.specs.Prelude.{List};
    ghost use Rattle.bb_menu.specs.declared.item.MenuItem.{MenuItem};

    ghost Value = { List MenuItem };

    ghost view = { λ m. m.items.items };
}

impl Menu {
    /// A menu without entries.
    pub(crate) fn none(alloc: Global) -> Menu
        ensures { result ≡ [] }
    {
        Menu {
            items: Vec::new(alloc),
        }
    }

    /// Appends an entry. It is dropped where memory is refused.
    pub(crate) fn push(&mut self, item: MenuItem) -> Result<(), NoMemory>
        ensures ok { OnOk result (self.new ≡ self.old ++ item ∷ []) }
        ensures err { OnErr result (self.new ≡ self.old) }
    {
        self.items.push(item)?;
        Ok(())
    }

    /// Brings the entries in their order.
    pub(crate) fn arrange(&mut self)
        ensures each_once { IsPermutation self.old self.new }
        ensures arranged { IsArranged self.new }
    {
        self.items.sort_unstable_by(|a, b| compare_items(a, b));
    }

    /// The entry that stands first, if there is one.
    pub fn into_first(self) -> Option<MenuItem>
        ensures { result ≡ slice_get self 0 }
    {
        self.items.into_iter().next()
    }

    pub fn len(&self) -> usize
        ensures { result ≡ length self.now }
    {
        self.items.len()
    }

    pub fn is_empty(&self) -> bool
        ensures { result ≡ (length self.now == 0) }
    {
        self.items.is_empty()
    }

    /// The name of the file at a place, `None` exactly from the length on.
    pub fn name(&self, place: usize) -> Option<&Text>
        ensures { option_copied result ≡ option_map (λ i. i.name) (slice_get self.now place) }
    {
        self.items.get(place).map(|item| &item.name)
    }

    /// The entry at a place, `None` exactly from the length on.
    pub fn entry(&self, place: usize) -> Option<&Entry>
        ensures { option_copied result ≡ option_map (λ i. i.entry) (slice_get self.now place) }
    {
        self.items.get(place).map(|item| &item.entry)
    }

    /// A line for each entry, in order: its file's name, a space, and its title, or its `linux`
    /// where the title is empty. LF ends each line.
    pub fn text(&self, alloc: Global) -> Result<Bytes, NoMemory>
        ensures { IfOk result (λ text. text ≡ menu_text self.now) }
    {
        let mut text = Bytes::none(alloc);
        for place in 0..self.items.len() {
            add_line(&self.items[place], &mut text)?;
        }
        Ok(text)
    }
}

fn add_line(item: &MenuItem, text: &mut Bytes) -> Result<(), NoMemory>
    ensures { OnOk result (text.new ≡ text.old ++ menu_line item.now) }
{
    text.add(item.name.as_str().as_bytes())?;
    text.add(b" ")?;
    text.add(menu_label(&item.entry).as_bytes())?;
    text.add(b"\n")
}

// What an entry is called.
fn menu_label(entry: &Entry) -> &str
    ensures { result.now ≡ menu_label entry.now }
{
    if entry.title.as_str().is_empty() {
        entry.linux.as_str()
    } else {
        entry.title.as_str()
    }
}

fn compare_items(a: &MenuItem, b: &MenuItem) -> Ordering
    ensures { result ≡ menu_cmp a.now b.now }
{
    compare_named(&a.entry, a.name.as_str(), &b.entry, b.name.as_str())
}
