// Histories of logs that nothing hurt.
use super::items::Item::{self, Four, One, Short, Two, Wide};
use super::{board, says, session, set_health, shows};
use bb_base::MemSink;
use bb_flash::Health;
use bb_tool::Status;
use std::test::Fail;

#[test]
fn a_fresh_device_has_no_entries(rt: HostRuntime) -> Result<(), Fail> {
    let sends = "copy 0 entries 0\ncopy 1 entries 0\ncopy 2 entries 0\n";
    shows(&rt, rt.alloc(), [&[], &[], &[]], sends)
}

#[test]
fn the_oldest_comes_first(rt: HostRuntime) -> Result<(), Fail> {
    let sends = "copy 0 entries 3\nentry 1\nn=4\ntext=\nentry 2\nn=1\ntext=\nentry 3\nn=2\ntext=\n\
        copy 1 entries 0\ncopy 2 entries 1\nentry 1\nn=1\ntext=\n";
    shows(&rt, rt.alloc(), [&[Four, One, Two], &[], &[One]], sends)
}

// A record of another length is shown as the layout reads it: a number that isn't whole in it has
// its default, and what comes after the layout's variables isn't shown.
#[test]
fn records_of_other_lengths_are_converted(rt: HostRuntime) -> Result<(), Fail> {
    let sends = "copy 0 entries 3\nentry 1\nn=3\ntext=\nentry 2\nn=1\ntext=\nentry 3\nn=4\ntext=\n\
        copy 1 entries 1\nentry 1\nn=3\ntext=\ncopy 2 entries 0\n";
    shows(&rt, rt.alloc(), [&[Short, One, Wide], &[Short], &[]], sends)
}

fn full() -> [Item; 16] {
    [
        One, Two, One, Two, One, Two, One, Two, One, Two, One, Two, One, Two, One, Four,
    ]
}

// A page is read once on the way back and once on the way forth: of each of the 16 entries of a
// copy its last page and its first.
#[test]
fn each_page_of_a_full_log_is_read_twice(rt: HostRuntime) -> Result<(), Fail> {
    let log = full();
    let mut device = board(rt.alloc(), [&log, &log, &log])?;
    let mut out = MemSink::with_room(rt.alloc(), 4000)?;
    let answer = session(rt.alloc(), &mut device, &mut out)?;
    assert_eq!(rt; answer, Status::Done);
    assert_eq!(rt; device.reads(), 192);
    assert_eq!(rt; device.programs(), 0);
    assert_eq!(rt; device.erase_count(), 0);
    Ok(())
}

// A blank page is read once.
#[test]
fn each_page_of_a_blank_log_is_read_once(rt: HostRuntime) -> Result<(), Fail> {
    let mut device = board(rt.alloc(), [&[], &[], &[]])?;
    let sends = "copy 0 entries 0\ncopy 1 entries 0\ncopy 2 entries 0\n";
    says(&rt, rt.alloc(), &mut device, Status::Done, sends.as_bytes())?;
    assert_eq!(rt; device.reads(), 96);
    Ok(())
}

// A Worn page counts as any other.
#[test]
fn a_worn_entry_is_shown(rt: HostRuntime) -> Result<(), Fail> {
    let mut device = board(rt.alloc(), [&[One, Two], &[], &[]])?;
    set_health(&mut device, 1, Health::Worn)?;
    let sends = "copy 0 entries 2\nentry 1\nn=1\ntext=\nentry 2\nn=2\ntext=\n\
        copy 1 entries 0\ncopy 2 entries 0\n";
    says(&rt, rt.alloc(), &mut device, Status::Done, sends.as_bytes())
}
