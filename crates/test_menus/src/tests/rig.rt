// Entries that the tests share, and what a menu has.
use bb_base::{NoMemory, Text, TextList};
use bb_bls::Entry;
use bb_menu::Menu;
use std::alloc::Global;
use std::fmt::Debug;
use std::process::Abort;

/// What was found is what is wanted. A call of this is proved sooner than `assert_eq!`.
pub fn same<T: PartialEq + Debug + Drop>(rt: &impl Abort, found: T, wanted: T) {
    assert_eq!(rt; found, wanted);
}

/// An entry with these keys, and nothing else in it.
pub fn entry(
    alloc: Global,
    sort_key: &str,
    machine_id: &str,
    version: &str,
) -> Result<Entry, NoMemory> {
    Ok(Entry {
        title: Text::of(alloc, "")?,
        version: Text::of(alloc, version)?,
        machine_id: Text::of(alloc, machine_id)?,
        sort_key: Text::of(alloc, sort_key)?,
        architecture: Text::of(alloc, "")?,
        linux: Text::of(alloc, "/zImage")?,
        options: Text::of(alloc, "")?,
        devicetree: Text::of(alloc, "")?,
        initrds: TextList::none(alloc),
    })
}

/// The menu has these names, in this order, and no more.
pub fn stands(rt: &impl Abort, menu: &Menu, wanted: &[&str]) {
    same(rt, menu.len(), wanted.len());
    same(rt, menu.is_empty(), wanted.is_empty());
    for place in 0..wanted.len() {
        is_at(rt, menu, place, wanted[place]);
    }
    assert!(rt; menu.name(wanted.len()).is_none());
    assert!(rt; menu.entry(wanted.len()).is_none());
}

fn is_at(rt: &impl Abort, menu: &Menu, place: usize, wanted: &str) {
    same(rt, menu.name(place).map(|name| name.as_str()), Some(wanted));
    assert!(rt; menu.entry(place).is_some());
}
