//! The program: the real device file, the real files and standard output, handed to one session.
//! Nothing stands on it.
#![tactic(auto)]

mod act;
mod command_line;
mod device_file;
mod disk;
mod early;
mod explain;
mod file_board;
mod filling;
mod open_error;
mod output;
mod place;
mod plan_file;
mod progress;
mod read_ahead;
mod real_files;
mod usage;

use act::{act, exit_code, send_early};
use bb_base::{NoMemory, TextList};
use bb_flash::geometry_of;
use bb_tool::Status;
use command_line::{Call, CommandLine, Device, Options};
use device_file::Access;
use early::{Early, EarlyTexts};
use explain::{explain_early, explain_session};
use file_board::FileBoard;
use output::Out;
use real_files::RealFiles;
use std::io;
use std::io::Write;
use std::process::ExitCode;

fn main(rt: HostRuntime) -> ExitCode {
    let mut out = Out::new(rt.alloc(), io::writer(&rt));
    let status = match CommandLine::read(&rt) {
        Ok(line) => answer(&rt, &line, &mut out),
        Err(NoMemory) => send_early(Early::NoMemory, texts(), &mut out),
    };
    exit_code(status)
}

fn texts() -> EarlyTexts<'static> {
    EarlyTexts {
        usage: usage::USAGE,
        version: usage::VERSION,
    }
}

// What the words ask for, and the sentence of `--explain`.
fn answer<W: Write>(rt: &HostRuntime, line: &CommandLine, out: &mut Out<W>) -> Status {
    let mut begun = begin(rt, line);
    let mut files = RealFiles::new(rt);
    if line.options.explain {
        out.keep_line();
    }
    let status = act(
        rt.alloc(),
        &line.words,
        texts(),
        &mut begun,
        &mut files,
        out,
    );
    if line.options.explain {
        match &begun {
            Ok(board) => {
                let error = error_of(status, &files, board, out);
                explain_session(rt, status, out.fault_words(), error);
            }
            Err(early) => explain_early(rt, line, *early),
        }
    }
    status
}

// The system's error at the call that a status comes from.
fn error_of<W: Write>(
    status: Status,
    files: &RealFiles<'_>,
    board: &FileBoard<'_>,
    out: &Out<W>,
) -> Option<io::Error> {
    match status {
        Status::FileMissing | Status::FileFault => files.error(),
        Status::ReadFault | Status::WriteFault | Status::SlotFault => board.error(),
        Status::StartFailed => board.start_error(),
        Status::SinkFault => out.error(),
        _ => None,
    }
}

// The device of a session, opened; or what comes in its place.
fn begin<'r>(rt: &'r HostRuntime, line: &CommandLine) -> Result<FileBoard<'r>, Early> {
    match &line.call {
        Call::Help => Err(Early::Help),
        Call::Version => Err(Early::Version),
        Call::NoSession => Err(Early::NoSession),
        Call::Session(device) => open(rt, device, &line.options, &line.words),
    }
}

// Opens the device, and makes way for the plan of a boot, which a script may do too.
fn open<'r>(
    rt: &'r HostRuntime,
    device: &Device,
    options: &Options,
    words: &TextList,
) -> Result<FileBoard<'r>, Early> {
    let Some(geometry) = geometry_of(device.geometry.as_str()) else {
        return Err(Early::NoSession);
    };
    let access = match options.read_only {
        true => Access::ReadOnly,
        false => Access::Full,
    };
    let path = device.path.as_str();
    let plan = options.plan.as_ref().map(|plan| plan.as_str());
    let mut board = FileBoard::open(rt, path, geometry, access, plan)?;
    if options.progress {
        board.tell_progress();
    }
    if starts_a_system(words) {
        board.make_way(path)?;
    }
    Ok(board)
}

fn starts_a_system(words: &TextList) -> bool {
    match words.get(0) {
        Some(command) => matches!(command.as_str(), "boot" | "shell"),
        None => false,
    }
}
