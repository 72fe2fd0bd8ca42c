ghost use Rattle.std.specs.Prelude.{◌≡◌, ◌<◌};

use super::board::{chooser, table};
use super::expected::best_of;
use bb_chooser::{Cause, Chooser};
use std::alloc::Global;
use std::process::Abort;
use std::test::Fail;

fn settings() -> &'static [u8] {
    b"global.bootchooser.targets=a b c\nglobal.bootchooser.state_prefix=state\n"
}

// Three digits to the base 3.
fn digits(n: u8) -> [u8; 3] {
    [n / 9 % 3, n / 3 % 3, n % 3]
}

fn mark(target: Option<usize>) -> u8 {
    match target {
        None => b'-',
        Some(0) => b'0',
        Some(1) => b'1',
        Some(_) => b'2',
    }
}

// All attempts at these priorities.
fn choose_at(rt: &impl Abort, alloc: Global, chooser: &Chooser, priorities: u8) -> Result<(), Fail>
    requires { chooser.now.area_len ≡ 28 }
{
    let expected = best_of(priorities);
    assert_eq!(rt; expected.len(), 27);
    for attempts in 0..27u8 {
        let table = table(alloc, digits(attempts), digits(priorities), 0)?;
        let chosen = mark(chooser.choose(&table));
        assert_eq!(rt;
            chosen,
            expected[attempts as usize],
            "priorities {priorities}, attempts {attempts}"
        );
        let later = mark(chooser.choose_after(&table, Cause::PowerOn));
        assert_eq!(rt; later, chosen);
    }
    Ok(())
}

#[test]
fn the_best_of_three_is_chosen(rt: HostRuntime) -> Result<(), Fail> {
    let chooser = chooser(rt.alloc(), settings())?;
    assert_eq!(rt; chooser.count(), 3);
    for priorities in 0..27u8 {
        choose_at(&rt, rt.alloc(), &chooser, priorities)?;
    }
    Ok(())
}
