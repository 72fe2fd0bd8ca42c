// Sessions that boot a board.
use super::boards::{Kind, source};
use bb_base::{MemFiles, MemSink, Text, TextList};
use bb_flash::MemBoard;
use bb_tool::{Status, run};
use std::alloc::Global;
use std::process::Abort;
use std::test::Fail;

// Whether another start is tried after one that failed.
#[derive(Clone, Copy, Debug, PartialEq, Eq)]
pub(super) enum Retry {
    No,
    Yes,
}

fn settings(retry: Retry) -> &'static [u8] {
    match retry {
        Retry::No => {
            b"global.bootchooser.targets=\"system0 system1\"
global.bootchooser.state_prefix=state.bootstate
"
        }
        Retry::Yes => {
            b"global.bootchooser.targets=\"system0 system1\"
global.bootchooser.state_prefix=state.bootstate
global.bootchooser.retry=1
"
        }
    }
}

fn entry() -> &'static [u8] {
    b"title Board
linux /zImage
options root=/dev/mmcblk0p1
options rw
"
}

// The files of a board.
pub(super) fn files(alloc: Global, kind: Kind, retry: Retry) -> Result<MemFiles, Fail> {
    let text = source(alloc, kind)?;
    let mut files = MemFiles::none(alloc);
    files.add("board.dts", text.as_slice())?;
    files.add("set.txt", settings(retry))?;
    files.add("loader/entries/system0.conf", entry())?;
    files.add("loader/entries/system1.conf", entry())?;
    Ok(files)
}

fn words(alloc: Global, line: &str) -> Result<TextList, Fail> {
    let mut list = TextList::none(alloc);
    for word in line.split(' ') {
        list.push(Text::of(alloc, word)?)?;
    }
    Ok(list)
}

// What a session of the words of this line answers.
pub(super) fn session(
    alloc: Global,
    files: &mut MemFiles,
    device: &mut MemBoard,
    line: &str,
    out: &mut MemSink,
) -> Result<Status, Fail> {
    let list = words(alloc, line)?;
    Ok(run(alloc, &list, files, device, out))
}

const BOOT: &str = "boot -i board.dts -c set.txt";

// What a boot answers.
pub(super) fn boot(
    alloc: Global,
    files: &mut MemFiles,
    device: &mut MemBoard,
) -> Result<Status, Fail> {
    let mut out = MemSink::with_room(alloc, 100)?;
    session(alloc, files, device, BOOT, &mut out)
}

// What a boot answers and sends.
pub(super) fn says(
    rt: &impl Abort,
    alloc: Global,
    files: &mut MemFiles,
    device: &mut MemBoard,
    status: Status,
    sends: &str,
) -> Result<(), Fail> {
    let mut out = MemSink::with_room(alloc, 100)?;
    let answer = session(alloc, files, device, BOOT, &mut out)?;
    assert_eq!(rt; out.sent_bytes(), sends.as_bytes());
    assert_eq!(rt; answer, status);
    Ok(())
}
