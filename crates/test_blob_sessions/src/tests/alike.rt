// Each session is tried by the source and by a blob, on two devices that go on from session to
// session.
use super::boards::{Kind, files, fresh, holds_records};
use super::sessions::{Session, boots, looks, raw_look, sets};
use super::trees::{compiled, source, written};
use bb_base::{MemFiles, MemSink, Text, TextList};
use bb_flash::MemBoard;
use bb_tool::run;
use std::alloc::Global;
use std::process::Abort;
use std::test::Fail;

// What a board's sessions have: its files and its device.
#[derive(Drop)]
struct Bench {
    files: MemFiles,
    device: MemBoard,
}

fn begin(alloc: Global, kind: Kind, tree: &[u8]) -> Result<Bench, Fail> {
    Ok(Bench {
        files: files(alloc, tree)?,
        device: fresh(alloc, kind)?,
    })
}

fn words(alloc: Global, line: &str) -> Result<TextList, Fail> {
    let mut list = TextList::none(alloc);
    for word in line.split(' ') {
        list.push(Text::of(alloc, word)?)?;
    }
    Ok(list)
}

fn says(rt: &impl Abort, alloc: Global, bench: &mut Bench, session: &Session) -> Result<(), Fail> {
    let mut out = MemSink::with_room(alloc, 400)?;
    let list = words(alloc, session.words)?;
    let status = run(alloc, &list, &mut bench.files, &mut bench.device, &mut out);
    assert_eq!(rt; out.sent_bytes(), session.text.as_bytes());
    assert_eq!(rt; status, session.status);
    assert_eq!(rt; bench.device.programs(), session.programs);
    bench.device.restart();
    Ok(())
}

// Whether the devices hold the same bytes after as many calls.
fn is_alike(one: &MemBoard, other: &MemBoard) -> bool {
    one.bytes() == other.bytes()
        && one.reads() == other.reads()
        && one.programs() == other.programs()
        && one.erase_count() == other.erase_count()
        && one.start_count() == other.start_count()
}

fn both_say(
    rt: &impl Abort,
    alloc: Global,
    one: &mut Bench,
    other: &mut Bench,
    session: &Session,
) -> Result<(), Fail> {
    says(rt, alloc, one, session)?;
    says(rt, alloc, other, session)?;
    let words = session.words;
    assert!(rt; is_alike(&one.device, &other.device), "{words}");
    Ok(())
}

// Whether each system was started once, the first one before the second.
fn has_started(device: &MemBoard) -> bool {
    device.start_count() == 2 && is_start_of(device, 0, "/zero") && is_start_of(device, 1, "/one")
}

fn is_start_of(device: &MemBoard, start: u32, linux: &str) -> bool {
    let Some(plan) = device.plan_at(start) else {
        return false;
    };
    plan.linux.as_str() == linux
}

// All sessions, by the source and by the blob.
fn are_alike(rt: &impl Abort, alloc: Global, kind: Kind, blob: &[u8]) -> Result<(), Fail> {
    let mut one = begin(alloc, kind, source(alloc)?.as_slice())?;
    let mut other = begin(alloc, kind, blob)?;
    for sessions in [looks(), sets(), boots()] {
        for session in &sessions {
            both_say(rt, alloc, &mut one, &mut other, session)?;
        }
    }
    both_say(rt, alloc, &mut one, &mut other, &raw_look(kind))?;
    assert!(rt; has_started(&one.device) && has_started(&other.device));
    assert_eq!(rt; one.device.erase_count(), 0);
    assert!(rt; holds_records(&one.device, kind));
    Ok(())
}

#[test]
fn what_dtc_compiles_in_place(rt: HostRuntime) -> Result<(), Fail> {
    are_alike(&rt, rt.alloc(), Kind::InPlace, compiled())
}

#[test]
fn what_dtc_compiles_in_blocks(rt: HostRuntime) -> Result<(), Fail> {
    are_alike(&rt, rt.alloc(), Kind::Blocks, compiled())
}

#[test]
fn what_is_written_in_place(rt: HostRuntime) -> Result<(), Fail> {
    let blob = written(rt.alloc())?;
    are_alike(&rt, rt.alloc(), Kind::InPlace, blob.as_slice())
}

#[test]
fn what_is_written_in_blocks(rt: HostRuntime) -> Result<(), Fail> {
    let blob = written(rt.alloc())?;
    are_alike(&rt, rt.alloc(), Kind::Blocks, blob.as_slice())
}
