ghost use Rattle.std.specs.Prelude.{◌≡◌, OnOk, length};

use super::board::{chooser, table};
use bb_chooser::{Cause, Chooser};
use bb_vars::Table;
use std::alloc::Global;
use std::process::Abort;
use std::test::Fail;

// What a reset of a table leaves; the target that is chosen then is the one that `choose_after`
// told.
fn reset_leaves(
    rt: &impl Abort,
    alloc: Global,
    chooser: &Chooser,
    cause: Cause,
    before: ([u8; 3], [u8; 3]),
    after: ([u8; 3], [u8; 3]),
) -> Result<(), Fail>
    requires { chooser.now.area_len ≡ 28 }
{
    let mut left = table(alloc, before.0, before.1, 2)?;
    let told = chooser.choose_after(&left, cause);
    chooser.reset(&mut left, cause);
    let expected = table(alloc, after.0, after.1, 2)?;
    assert_eq!(rt; left.bytes(), expected.bytes());
    let chosen = chooser.choose(&left);
    assert_eq!(rt; chosen, told);
    Ok(())
}

const FULL: ([u8; 3], [u8; 3]) = ([1, 2, 0], [5, 5, 0]);

const USED_UP: ([u8; 3], [u8; 3]) = ([0, 0, 2], [5, 4, 0]);

const DISABLED: ([u8; 3], [u8; 3]) = ([1, 2, 0], [0, 0, 0]);

// Nothing is reset by itself.
fn no_settings() -> &'static [u8] {
    b"global.bootchooser.targets=a b c\n\
      global.bootchooser.state_prefix=state"
}

fn resets_nothing(rt: &impl Abort, alloc: Global, chooser: &Chooser) -> Result<(), Fail>
    requires { chooser.now.area_len ≡ 28 }
{
    reset_leaves(rt, alloc, chooser, Cause::PowerOn, FULL, FULL)?;
    reset_leaves(rt, alloc, chooser, Cause::Reset, USED_UP, USED_UP)?;
    reset_leaves(rt, alloc, chooser, Cause::Other, DISABLED, DISABLED)
}

#[test]
fn nothing_is_reset(rt: HostRuntime) -> Result<(), Fail> {
    let chooser = chooser(rt.alloc(), no_settings())?;
    resets_nothing(&rt, rt.alloc(), &chooser)
}

fn at_power_on() -> &'static [u8] {
    b"global.bootchooser.targets=a b c\n\
      global.bootchooser.state_prefix=state\n\
      global.bootchooser.reset_attempts=power-on\n\
      global.bootchooser.b.default_attempts=7"
}

fn resets_at_power_on(rt: &impl Abort, alloc: Global, chooser: &Chooser) -> Result<(), Fail>
    requires { chooser.now.area_len ≡ 28 }
{
    let after = ([3, 7, 3], [5, 5, 0]);
    reset_leaves(rt, alloc, chooser, Cause::PowerOn, FULL, after)?;
    reset_leaves(rt, alloc, chooser, Cause::Reset, FULL, FULL)?;
    reset_leaves(rt, alloc, chooser, Cause::Other, USED_UP, USED_UP)
}

#[test]
fn a_cause_resets_attempts(rt: HostRuntime) -> Result<(), Fail> {
    let chooser = chooser(rt.alloc(), at_power_on())?;
    resets_at_power_on(&rt, rt.alloc(), &chooser)
}

fn used_up() -> &'static [u8] {
    b"global.bootchooser.targets=a b c\n\
      global.bootchooser.state_prefix=state\n\
      global.bootchooser.reset_attempts=reset all-zero"
}

fn resets_used_up(rt: &impl Abort, alloc: Global, chooser: &Chooser) -> Result<(), Fail>
    requires { chooser.now.area_len ≡ 28 }
{
    let after = ([3, 3, 3], [5, 4, 0]);
    reset_leaves(rt, alloc, chooser, Cause::Other, USED_UP, after)?;
    reset_leaves(rt, alloc, chooser, Cause::Other, FULL, FULL)?;
    reset_leaves(rt, alloc, chooser, Cause::PowerOn, DISABLED, DISABLED)?;
    let after = ([3, 3, 3], [5, 5, 0]);
    reset_leaves(rt, alloc, chooser, Cause::Reset, FULL, after)
}

#[test]
fn used_up_attempts_are_reset(rt: HostRuntime) -> Result<(), Fail> {
    let chooser = chooser(rt.alloc(), used_up())?;
    resets_used_up(&rt, rt.alloc(), &chooser)
}

fn both() -> &'static [u8] {
    b"global.bootchooser.targets=a b c\n\
      global.bootchooser.state_prefix=state\n\
      global.bootchooser.reset_priorities=all-zero\n\
      global.bootchooser.reset_attempts=all-zero\n\
      global.bootchooser.c.default_priority=9"
}

fn resets_both(rt: &impl Abort, alloc: Global, chooser: &Chooser) -> Result<(), Fail>
    requires { chooser.now.area_len ≡ 28 }
{
    let after = ([1, 2, 0], [1, 1, 9]);
    reset_leaves(rt, alloc, chooser, Cause::Other, DISABLED, after)?;
    let (before, after) = (([0, 0, 0], [0, 0, 0]), ([3, 3, 3], [1, 1, 9]));
    reset_leaves(rt, alloc, chooser, Cause::Other, before, after)?;
    reset_leaves(rt, alloc, chooser, Cause::Other, FULL, FULL)
}

#[test]
fn priorities_are_reset_first(rt: HostRuntime) -> Result<(), Fail> {
    let chooser = chooser(rt.alloc(), both())?;
    resets_both(&rt, rt.alloc(), &chooser)
}

fn disabling() -> &'static [u8] {
    b"global.bootchooser.targets=a b c\n\
      global.bootchooser.state_prefix=state\n\
      global.bootchooser.disable_on_zero_attempts=1"
}

fn holds(
    rt: &impl Abort,
    alloc: Global,
    left: &Table,
    attempts: [u8; 3],
    priorities: [u8; 3],
    last: u8,
) -> Result<(), Fail> {
    let wanted = table(alloc, attempts, priorities, last)?;
    assert_eq!(rt; left.bytes(), wanted.bytes());
    Ok(())
}

// The last attempt of the first target, which takes its priority with it.
fn spends_the_last(
    rt: &impl Abort,
    alloc: Global,
    chooser: &Chooser,
    left: &mut Table,
) -> Result<(), Fail>
    requires area { chooser.now.area_len ≡ 28 }
    requires table { length left.old ≡ 28 }
    ensures table { OnOk result (length left.new ≡ 28) }
{
    assert!(rt; !chooser.mark_good(left));
    assert_eq!(rt; chooser.choose(left), Some(0));
    assert_eq!(rt; chooser.count(), 3);
    if chooser.attempts(left, 0) == 0 {
        return Err(Fail::from("no attempt is left"));
    }
    chooser.spend(left, 0);
    holds(rt, alloc, left, [0, 2, 0], [0, 4, 0], 1)
}

// The target that was chosen last gets its attempts back, and no priority.
fn restores(rt: &impl Abort, alloc: Global, chooser: &Chooser, left: &mut Table) -> Result<(), Fail>
    requires area { chooser.now.area_len ≡ 28 }
    requires table { length left.old ≡ 28 }
{
    assert_eq!(rt; chooser.last_chosen(left), 1);
    assert!(rt; chooser.mark_good(left));
    assert_eq!(rt; chooser.count(), 3);
    assert_eq!(rt; chooser.priority(left, 1), 4);
    holds(rt, alloc, left, [3, 2, 0], [0, 4, 0], 1)
}

fn spends_and_restores(rt: &impl Abort, alloc: Global, chooser: &Chooser) -> Result<(), Fail>
    requires { chooser.now.area_len ≡ 28 }
{
    let mut left = table(alloc, [1, 2, 0], [5, 4, 0], 0)?;
    spends_the_last(rt, alloc, chooser, &mut left)?;
    restores(rt, alloc, chooser, &mut left)
}

fn names_three(rt: &impl Abort, chooser: &Chooser) -> Result<(), Fail> {
    assert!(rt; !chooser.retry());
    let name = chooser.name(2).ok_or("no third name")?;
    assert_eq!(rt; name.as_str(), "c");
    let entry = chooser.entry(2).ok_or("no third entry")?;
    assert_eq!(rt; entry.as_str(), "loader/entries/c.conf");
    assert!(rt; chooser.name(3).is_none());
    Ok(())
}

// An attempt is spent, the last one takes the priority with it, and the target that was chosen last
// is restored.
#[test]
fn attempts_are_spent_and_restored(rt: HostRuntime) -> Result<(), Fail> {
    let chooser = chooser(rt.alloc(), disabling())?;
    names_three(&rt, &chooser)?;
    spends_and_restores(&rt, rt.alloc(), &chooser)
}
