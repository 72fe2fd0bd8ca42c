use bb_base::{MemFiles, MemSink, Text, TextList};
use bb_flash::MemBoard;
use bb_tool::{Status, run};
use rig::{Rig, source};
use std::alloc::Global;
use std::process::Abort;
use std::test::Fail;

mod each_stop;
mod health;
mod outside;
mod rig;
mod rows;
mod steps;
mod tables;

fn words(alloc: Global, line: &str) -> Result<TextList, Fail> {
    let mut list = TextList::none(alloc);
    for word in line.split(' ') {
        list.push(Text::of(alloc, word)?)?;
    }
    Ok(list)
}

fn settings() -> &'static [u8] {
    b"global.bootchooser.targets=\"system0 system1\"
global.bootchooser.state_prefix=state.bootstate
"
}

fn entry() -> &'static [u8] {
    b"title Board
linux /zImage
options root=/dev/mmcblk0p1
options rw
"
}

// The files of a board with this rig.
fn files_of(alloc: Global, rig: Rig) -> Result<MemFiles, Fail> {
    let text = source(alloc, rig)?;
    let mut files = MemFiles::none(alloc);
    files.add("board.dts", text.as_slice())?;
    files.add("set.txt", settings())?;
    files.add("loader/entries/system0.conf", entry())?;
    files.add("loader/entries/system1.conf", entry())?;
    Ok(files)
}

// What a session of the words of this line answers. It sends to `out`.
fn session(
    alloc: Global,
    line: &str,
    files: &mut MemFiles,
    device: &mut MemBoard,
    out: &mut MemSink,
) -> Result<Status, Fail> {
    let list = words(alloc, line)?;
    Ok(run(alloc, &list, files, device, out))
}

// What such a session answers and sends, with the rig's files.
fn says(
    rt: &impl Abort,
    alloc: Global,
    rig: Rig,
    line: &str,
    device: &mut MemBoard,
    status: Status,
    sends: &str,
) -> Result<(), Fail> {
    let mut files = files_of(alloc, rig)?;
    let mut out = MemSink::with_room(alloc, 300)?;
    let answer = session(alloc, line, &mut files, device, &mut out)?;
    answers(rt, answer, status, sends);
    sent(rt, &out, sends);
    Ok(())
}

fn answers(rt: &impl Abort, answer: Status, status: Status, sends: &str) {
    assert_eq!(rt; answer, status, "{sends}");
}

fn sent(rt: &impl Abort, out: &MemSink, sends: &str) {
    assert_eq!(rt; out.sent_bytes(), sends.as_bytes());
}
