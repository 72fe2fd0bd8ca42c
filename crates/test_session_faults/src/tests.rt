use bb_base::{MemFiles, MemSink, Text, TextList};
use bb_flash::MemBoard;
use bb_tool::{Status, run};
use std::alloc::Global;
use std::process::Abort;
use std::test::Fail;

mod cut_log;
mod each_fault;
mod each_fault_in_blocks;
mod entries;
mod faults;
mod grown;
mod mended;
mod old_record;
mod rig;
mod sets;
mod steps;

use rig::Rig;

fn words(alloc: Global, line: &str) -> Result<TextList, Fail> {
    let mut list = TextList::none(alloc);
    for word in line.split(' ') {
        list.push(Text::of(alloc, word)?)?;
    }
    Ok(list)
}

fn files_of(alloc: Global, text: &str) -> Result<MemFiles, Fail> {
    let mut files = MemFiles::none(alloc);
    files.add("a.dts", text.as_bytes())?;
    Ok(files)
}

// A session of the words of this line, where the file `a.dts` has the rig's source.
fn session(
    alloc: Global,
    rig: Rig,
    line: &str,
    device: &mut MemBoard,
    out: &mut MemSink,
) -> Result<Status, Fail> {
    let mut files = files_of(alloc, rig.source())?;
    let list = words(alloc, line)?;
    Ok(run(alloc, &list, &mut files, device, out))
}

// What such a session answers and sends.
fn says(
    rt: &impl Abort,
    alloc: Global,
    rig: Rig,
    line: &str,
    device: &mut MemBoard,
    status: Status,
    sends: &str,
) -> Result<(), Fail> {
    let mut out = MemSink::with_room(alloc, 100)?;
    let answer = session(alloc, rig, line, device, &mut out)?;
    answers(rt, answer, status, sends);
    sent(rt, &out, sends);
    Ok(())
}

fn answers(rt: &impl Abort, answer: Status, status: Status, sends: &str) {
    assert_eq!(rt; answer, status, "{sends}");
}

fn sent(rt: &impl Abort, out: &MemSink, sends: &str) {
    assert_eq!(rt; out.sent_bytes(), sends.as_bytes());
}
