// Looks at a state: its file, its layout, and what is shown of it.
use super::{answers, blank, board, entry, fresh, holds, sent, strides, words, written};
use bb_base::{MemFiles, MemSink};
use bb_flash::{Fault, Fill, MemBoard};
use bb_tool::{Status, run};
use std::alloc::Global;
use std::process::Abort;
use std::test::Fail;

// An area of 9 bytes in three strides of 64 bytes, under the magic 0x12345678.
fn tree() -> &'static str {
    "/dts-v1/;
/ {
    part { phandle = <1>; reg = <0 192>; };
    state {
        compatible = \"barebox,state\"; magic = <0x12345678>; backend-type = \"raw\"; backend = <1>;
        n@0 { reg = <0 4>; type = \"uint32\"; default = <3>; };
        mode@4 { reg = <4 4>; type = \"enum32\"; names = \"primary\", \"backup\"; default = <1>; };
        c@8 { reg = <8 1>; type = \"uint8\"; };
    };
};"
}

const DEFAULTS: &str = "n=3\nmode=backup\nc=0\n";

// The table that `123456789` is: two numbers of 4 bytes, the second of which names nothing, and one
// byte.
const FOUND: &str = "n=875770417\nmode=943142453\nc=57\n";

fn dump() -> [&'static str; 4] {
    ["state", "-i", "a.dts", "-d"]
}

fn files(alloc: Global, text: &str) -> Result<MemFiles, Fail> {
    let mut files = MemFiles::none(alloc);
    files.add("a.dts", text.as_bytes())?;
    Ok(files)
}

// What a session of these words answers. It sends to `out`.
fn session(
    alloc: Global,
    all: &[&str],
    files: &mut MemFiles,
    device: &mut MemBoard,
    out: &mut MemSink,
) -> Result<Status, Fail> {
    let list = words(alloc, all)?;
    Ok(run(alloc, &list, files, device, out))
}

// A session of these words answers and sends this.
pub(super) fn says(
    rt: &impl Abort,
    alloc: Global,
    all: &[&str],
    files: &mut MemFiles,
    device: &mut MemBoard,
    status: Status,
    sends: &str,
) -> Result<(), Fail> {
    let mut out = MemSink::with_room(alloc, 200)?;
    let answer = session(alloc, all, files, device, &mut out)?;
    answers(rt, answer, status, sends);
    sent(rt, &out, sends);
    Ok(())
}

// The same over a file with this text.
pub(super) fn says_of(
    rt: &impl Abort,
    alloc: Global,
    all: &[&str],
    text: &str,
    device: &mut MemBoard,
    status: Status,
    sends: &str,
) -> Result<(), Fail> {
    let mut files = files(alloc, text)?;
    says(rt, alloc, all, &mut files, device, status, sends)
}

// A fresh device whose first call fails.
fn failing(alloc: Global) -> Result<MemBoard, Fail> {
    let mut device = board(alloc, &fresh())?;
    device.plan_fault(0, Fault::Fail(Fill::Old))?;
    Ok(device)
}

// The words are refused before the device is asked, whose first call would fail.
fn refuses(
    rt: &impl Abort,
    alloc: Global,
    all: &[&str],
    text: &str,
    status: Status,
    line: &str,
) -> Result<(), Fail> {
    let mut device = failing(alloc)?;
    says_of(rt, alloc, all, text, &mut device, status, line)
}

// The session ends with this text, and the status of one that was done.
fn prints(
    rt: &impl Abort,
    alloc: Global,
    words: &[&str],
    device: &mut MemBoard,
    sends: &str,
) -> Result<(), Fail> {
    says_of(rt, alloc, words, tree(), device, Status::Done, sends)
}

fn shows_defaults(rt: &impl Abort, alloc: Global, device: &mut MemBoard) -> Result<(), Fail> {
    let get = ["state", "-g", "mode", "--input=a.dts", "--get", "n"];
    prints(rt, alloc, &get, device, "backup\n3\n")?;
    prints(rt, alloc, &dump(), device, DEFAULTS)?;
    let shell = ["state", "-i", "a.dts", "--dump-shell"];
    let text = "state_n=\"3\"\nstate_mode=\"backup\"\nstate_c=\"0\"\n";
    prints(rt, alloc, &shell, device, text)
}

#[test]
fn a_fresh_device_shows_the_defaults(rt: HostRuntime) -> Result<(), Fail> {
    let alloc = rt.alloc();
    let mut device = board(alloc, &fresh())?;
    shows_defaults(&rt, alloc, &mut device)?;
    holds(&rt, &device, &fresh());
    Ok(())
}

// A device with these bytes prints this table.
fn dumps(rt: &impl Abort, alloc: Global, bytes: &[u8], table: &str) -> Result<(), Fail> {
    let mut device = board(alloc, bytes)?;
    prints(rt, alloc, &dump(), &mut device, table)
}

#[test]
fn the_first_passing_copy_is_shown(rt: HostRuntime) -> Result<(), Fail> {
    let alloc = rt.alloc();
    dumps(&rt, alloc, &written(), FOUND)?;
    let mut bytes = strides([blank(), entry(), blank()]);
    dumps(&rt, alloc, &bytes, FOUND)?;
    // One bit of the area in copy 1 is another one.
    bytes[64 + 24] = 0x30;
    dumps(&rt, alloc, &bytes, DEFAULTS)
}

#[test]
fn refused_words_come_before_the_device(rt: HostRuntime) -> Result<(), Fail> {
    let alloc = rt.alloc();
    let (words, line) = (["state", "-d"], "fault 1 BadWords 3\n");
    refuses(&rt, alloc, &words, tree(), Status::BadWords, line)?;
    let (words, line) = (["state", "-i", "no.dts"], "fault 5 FileMissing no.dts\n");
    refuses(&rt, alloc, &words, tree(), Status::FileMissing, line)?;
    let words = ["state", "-i", "a.dts", "-g", "nope"];
    let line = "fault 4 BadVariable nope NoSuchVariable\n";
    refuses(&rt, alloc, &words, tree(), Status::BadVariable, line)
}

#[test]
fn refused_sources_come_before_the_device(rt: HostRuntime) -> Result<(), Fail> {
    let alloc = rt.alloc();
    let left_out = "/dts-v1/; / { a = <(1)>; };";
    let line = "fault 2 BadTree LeftOut 19\n";
    refuses(&rt, alloc, &dump(), left_out, Status::BadTree, line)?;
    let too_large = "/dts-v1/; / { a = <4294967296>; };";
    let line = "fault 2 BadTree NumberTooLarge 19\n";
    refuses(&rt, alloc, &dump(), too_large, Status::BadTree, line)?;
    let no_state = "/dts-v1/; / { a = <4294967295>; };";
    let line = "fault 3 BadLayout NoState\n";
    refuses(&rt, alloc, &dump(), no_state, Status::BadLayout, line)
}

fn failing_files(alloc: Global) -> Result<MemFiles, Fail> {
    let mut files = files(alloc, tree())?;
    files.fail_call(0)?;
    Ok(files)
}

// The file isn't read, and after it, by the same files, the device isn't.
fn tells_both_faults(rt: &impl Abort, alloc: Global, device: &mut MemBoard) -> Result<(), Fail> {
    let mut files = failing_files(alloc)?;
    tells_each(rt, alloc, &mut files, device)
}

fn tells_each(
    rt: &impl Abort,
    alloc: Global,
    files: &mut MemFiles,
    device: &mut MemBoard,
) -> Result<(), Fail> {
    let line = "fault 6 FileFault a.dts\n";
    says(rt, alloc, &dump(), files, device, Status::FileFault, line)?;
    device.plan_fault(0, Fault::Fail(Fill::Old))?;
    let line = "fault 8 ReadFault\n";
    says(rt, alloc, &dump(), files, device, Status::ReadFault, line)
}

#[test]
fn faults_of_the_files_and_the_device_are_told(rt: HostRuntime) -> Result<(), Fail> {
    let alloc = rt.alloc();
    let mut device = board(alloc, &written())?;
    tells_both_faults(&rt, alloc, &mut device)?;
    holds(&rt, &device, &written());
    Ok(())
}
