// The comparisons that the Version Format Specification (UAPI.10) publishes.
use super::rig::entry;
use bb_bls::Entry;
use bb_menu::before;
use std::alloc::Global;
use std::process::Abort;
use std::test::Fail;

// The versions as they rise.
fn rising() -> &'static [(&'static str, &'static str)] {
    &[
        ("bar-123", "foo-123"),
        ("123", "123a"),
        ("123", "123.a"),
        ("123.a", "123.b"),
        ("123.a", "123a"),
        ("B", "a"),
        ("", "0"),
        ("0", "0."),
        ("0", "0.0"),
        ("~", "0"),
        ("~", ""),
        ("1_", "1.2"),
        ("1.3.3", "1_2_3"),
        ("1+", "1.2"),
        ("1.3.3", "1+2+3"),
        ("122.1", "123~rc1-1"),
        ("123~rc1-1", "123"),
        ("123", "123-a"),
        ("123-a", "123-a.1"),
        ("123-a.1", "123-1"),
        ("123-1", "123-1.1"),
        ("123-1.1", "123^post1"),
        ("123^post1", "123.a-1"),
        ("123.1-1", "123a-1"),
        ("123a-1", "124-1"),
    ]
}

// Where marks follow one another the rule is this project's own.
fn rising_by_marks() -> &'static [(&'static str, &'static str)] {
    &[("a^-", "a^.~"), ("a^", "a^.."), ("a-~", "a-")]
}

// Versions that are equal.
fn equal() -> &'static [(&'static str, &'static str)] {
    &[
        ("11", "11"),
        ("systemd-123", "systemd-123"),
        ("11\u{3b1}", "11\u{3b2}"),
        ("1_", "1"),
        ("_1", "1"),
        ("1+", "1"),
        ("+1", "1"),
    ]
}

// By the rules that are published beside them: zeros in front of a number count nothing, nor does a
// character that only separates.
fn equal_by_rule() -> &'static [(&'static str, &'static str)] {
    &[("01", "1"), ("~_", "~")]
}

// Whether the first version is the greater, and so stands in front.
fn is_greater(alloc: Global, version: &str, other: &str) -> Result<bool, Fail> {
    let a = entry(alloc, "s", "", version)?;
    stands_before(alloc, &a, other)
}

fn stands_before(alloc: Global, a: &Entry, other: &str) -> Result<bool, Fail> {
    let b = entry(alloc, "s", "", other)?;
    Ok(before(a, "n.conf", &b, "n.conf"))
}

fn compares(rt: &impl Abort, alloc: Global, less: &str, more: &str) -> Result<(), Fail> {
    is(rt, is_greater(alloc, more, less)?, more, "no greater", less);
    is(rt, !is_greater(alloc, less, more)?, less, "greater", more);
    Ok(())
}

fn ties(rt: &impl Abort, alloc: Global, version: &str, other: &str) -> Result<(), Fail> {
    is(
        rt,
        !is_greater(alloc, version, other)?,
        version,
        "greater",
        other,
    );
    is(
        rt,
        !is_greater(alloc, other, version)?,
        other,
        "greater",
        version,
    );
    Ok(())
}

fn is(rt: &impl Abort, holds: bool, version: &str, wrong: &str, other: &str) {
    assert!(rt; holds, "{version:?} is {wrong} than {other:?}");
}

// In each pair the second version is the greater.
fn rise(rt: &impl Abort, alloc: Global, pairs: &[(&str, &str)]) -> Result<(), Fail> {
    for (less, more) in pairs {
        compares(rt, alloc, less, more)?;
    }
    Ok(())
}

#[test]
fn versions_that_rise(rt: HostRuntime) -> Result<(), Fail> {
    rise(&rt, rt.alloc(), rising())
}

#[test]
fn versions_that_rise_by_marks(rt: HostRuntime) -> Result<(), Fail> {
    rise(&rt, rt.alloc(), rising_by_marks())
}

// Neither version of a pair is the greater.
fn tie(rt: &impl Abort, alloc: Global, pairs: &[(&str, &str)]) -> Result<(), Fail> {
    for (version, other) in pairs {
        ties(rt, alloc, version, other)?;
    }
    Ok(())
}

#[test]
fn versions_that_are_equal(rt: HostRuntime) -> Result<(), Fail> {
    tie(&rt, rt.alloc(), equal())
}

#[test]
fn versions_that_are_equal_by_rule(rt: HostRuntime) -> Result<(), Fail> {
    tie(&rt, rt.alloc(), equal_by_rule())
}
