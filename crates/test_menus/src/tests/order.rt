// Which of two entries stands in front: each key in its turn.
use super::rig::entry;
use bb_bls::Entry;
use bb_menu::before;
use std::alloc::Global;
use std::test::Fail;

// Two entries, the first of which stands in front: the sort key, the machine, the version and the
// file's name of each.
type Row = (
    &'static str,
    &'static str,
    &'static str,
    &'static str,
    &'static str,
    &'static str,
    &'static str,
    &'static str,
);

fn rows() -> &'static [Row] {
    &[
        // Sort keys rise, by bytes.
        ("a", "", "1", "x.conf", "b", "", "2", "x.conf"),
        ("S", "", "", "x.conf", "a", "", "", "x.conf"),
        ("a", "", "", "x.conf", "a1", "", "", "x.conf"),
        // Without one an entry stands after those with one.
        ("z", "", "", "a.conf", "", "", "9", "z.conf"),
        // Machines rise, then versions fall.
        ("s", "1", "1", "x.conf", "s", "2", "9", "x.conf"),
        ("s", "1", "10", "x.conf", "s", "1", "9", "x.conf"),
        // Without a sort key neither counts: names fall as versions.
        ("", "2", "1", "b-1.10.conf", "", "1", "9", "b-1.9.conf"),
        // Where the keys tie names decide, without their ending.
        ("s", "", "01", "b.conf", "s", "", "1", "a.conf"),
        ("", "", "", "a-1.conf", "", "", "", "a.conf"),
        ("", "", "", "a.conf", "", "", "", "a~rc.conf"),
        // Names that tie as versions rise by their bytes.
        ("", "", "", "a-01.conf", "", "", "", "a-1.conf"),
    ]
}

// Whether the first stands before the second, and neither the second before the first nor the first
// before itself.
fn is_order(first: &Entry, name: &str, second: &Entry, other: &str) -> bool {
    before(first, name, second, other)
        && !before(second, other, first, name)
        && !before(first, name, first, name)
}

fn stand_in_order(alloc: Global, row: &Row) -> Result<bool, Fail> {
    let (key, machine, version, name, _, _, _, _) = *row;
    let first = entry(alloc, key, machine, version)?;
    stands_before(alloc, &first, name, row)
}

fn stands_before(alloc: Global, first: &Entry, name: &str, row: &Row) -> Result<bool, Fail> {
    let (_, _, _, _, key, machine, version, other) = *row;
    let second = entry(alloc, key, machine, version)?;
    Ok(is_order(first, name, &second, other))
}

#[test]
fn each_key_in_its_turn(rt: HostRuntime) -> Result<(), Fail> {
    for (place, row) in rows().iter().enumerate() {
        let holds = stand_in_order(rt.alloc(), row)?;
        assert!(rt; holds, "row {place}");
    }
    Ok(())
}
