ghost use Rattle.std.specs.Prelude.{◌≡◌, ◌↔◌, false, IsTrue};
ghost use Rattle.bb_menu.specs.Order.{MenuBefore, entry_cmp, lacks_sort_key, menu_cmp};
ghost use Rattle.bb_menu.specs.Order.{menu_stem, named_entry};

use crate::version::compare_versions;
use bb_bls::Entry;
use std::cmp::Ordering;

/// Whether an entry stands in front of another in a menu, each under the name of its file.
pub fn before(a: &Entry, a_name: &str, b: &Entry, b_name: &str) -> bool
    ensures { IsTrue result
        ↔ MenuBefore (named_entry a_name.now a.now) (named_entry b_name.now b.now) }
{
    compare_named(a, a_name, b, b_name).is_lt()
}

/// Compares two entries under the names of their files.
pub(crate) fn compare_named(a: &Entry, a_name: &str, b: &Entry, b_name: &str) -> Ordering
    ensures { result ≡ menu_cmp (named_entry a_name.now a.now) (named_entry b_name.now b.now) }
{
    compare_entries(a, b)
        .then_with(|| compare_versions(menu_stem(b_name), menu_stem(a_name)))
        .then_with(|| a_name.cmp(b_name))
}

// Compares what stands in two entries.
fn compare_entries(a: &Entry, b: &Entry) -> Ordering
    ensures { result ≡ entry_cmp a.now b.now }
{
    match (lacks_sort_key(a), lacks_sort_key(b)) {
        (true, true) => Ordering::Equal,
        (true, false) => Ordering::Greater,
        (false, true) => Ordering::Less,
        (false, false) => compare_sorted(a, b),
    }
}

// Compares two entries that have a sort key each.
fn compare_sorted(a: &Entry, b: &Entry) -> Ordering
    requires key { lacks_sort_key a.now ≡ false }
    requires other_key { lacks_sort_key b.now ≡ false }
    ensures { result ≡ entry_cmp a.now b.now }
{
    let keys = a.sort_key.as_str().cmp(b.sort_key.as_str());
    let machines = a.machine_id.as_str().cmp(b.machine_id.as_str());
    keys.then(machines)
        .then_with(|| compare_versions(version(b), version(a)))
}

fn version(entry: &Entry) -> &[u8]
    ensures { result.now ≡ entry.now.version }
{
    entry.version.as_str().as_bytes()
}

fn lacks_sort_key(entry: &Entry) -> bool
    ensures { result ≡ lacks_sort_key entry.now }
{
    entry.sort_key.as_str().is_empty()
}

// A file's name without its ending `.conf`.
fn menu_stem(name: &str) -> &[u8]
    ensures { result.now ≡ menu_stem name.now }
{
    let name = name.as_bytes();
    name.strip_suffix(b".conf").unwrap_or(name)
}
