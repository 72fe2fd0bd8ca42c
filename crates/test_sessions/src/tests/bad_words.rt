// Words that don't fit, and the line that names the first of them.
use super::{board, fresh, holds, look, says};
use bb_flash::{Fault, Fill, MemBoard};
use bb_tool::Status;
use std::alloc::Global;
use std::process::Abort;
use std::test::Fail;

// A fresh device whose first call fails.
fn failing(alloc: Global) -> Result<MemBoard, Fail> {
    let mut device = board(alloc, &fresh())?;
    device.plan_fault(0, Fault::Fail(Fill::Junk))?;
    Ok(device)
}

// The line of bad words gives the first word that doesn't fit, and no call of the device is made:
// the first call after it is the one for which a fault was planned.
fn bad_words(rt: &impl Abort, alloc: Global, all: &[&str], line: &str) -> Result<(), Fail> {
    let mut device = failing(alloc)?;
    are_bad(rt, alloc, &mut device, all, line)
}

fn are_bad(
    rt: &impl Abort,
    alloc: Global,
    device: &mut MemBoard,
    all: &[&str],
    line: &str,
) -> Result<(), Fail> {
    says(rt, alloc, all, device, Status::BadWords, line)?;
    holds(rt, device, &fresh());
    let missed = "fault 8 ReadFault\n";
    says(rt, alloc, &look(), device, Status::ReadFault, missed)
}

#[test]
fn the_first_word_that_doesnt_fit_is_named(rt: HostRuntime) -> Result<(), Fail> {
    let alloc = rt.alloc();
    let first = "fault 1 BadWords 1\n";
    bad_words(&rt, alloc, &[], first)?;
    bad_words(&rt, alloc, &["rAw", "1", "9", "-g"], first)?;
    let second = "fault 1 BadWords 2\n";
    bad_words(&rt, alloc, &["raw"], second)?;
    bad_words(&rt, alloc, &["raw", "x", "9", "-g"], second)?;
    bad_words(&rt, alloc, &["raw", "4294967296", "9", "-g"], second)?;
    let third = "fault 1 BadWords 3\n";
    bad_words(&rt, alloc, &["raw", "0x12345678"], third)?;
    bad_words(&rt, alloc, &["raw", "1", "65536", "-g"], third)?;
    let fourth = "fault 1 BadWords 4\n";
    bad_words(&rt, alloc, &["raw", "1", "9"], fourth)?;
    bad_words(&rt, alloc, &["raw", "1", "9", "--get"], fourth)
}

// Words that spell no area of 9 bytes: too few digits, too many, or other letters.
fn wrong_digits() -> [&'static str; 6] {
    [
        "3132333435363738",
        "31323334353637383",
        "3132333435363738390",
        "31323334353637383930",
        "31323334353637383g",
        "0x3132333435363738",
    ]
}

#[test]
fn words_behind_the_action_are_named(rt: HostRuntime) -> Result<(), Fail> {
    let alloc = rt.alloc();
    let fifth = "fault 1 BadWords 5\n";
    bad_words(&rt, alloc, &["raw", "1", "9", "-g", "-g"], fifth)?;
    bad_words(&rt, alloc, &["raw", "1", "9", "-s"], fifth)?;
    for digits in wrong_digits() {
        bad_words(&rt, alloc, &["raw", "1", "9", "-s", digits], fifth)?;
        bad_words(&rt, alloc, &["raw", "1", "9", "-s", digits, "x"], fifth)?;
    }
    let sixth = "fault 1 BadWords 6\n";
    bad_words(&rt, alloc, &["raw", "1", "2", "-s", "aB01", "x"], sixth)
}
