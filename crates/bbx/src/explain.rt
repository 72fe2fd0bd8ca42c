use crate::command_line::CommandLine;
use crate::early::Early;
use crate::open_error::{Cause, Refused};
use bb_tool::Status;
use std::io;

/// Says on standard error why a session ended so. The words are those after the name in its fault
/// line.
pub fn explain_session<R: Eprint>(rt: &R, status: Status, words: &str, error: Option<io::Error>) {
    let Some((front, rest)) = sentence_of(status) else {
        return;
    };
    say(rt, front, words, rest, error);
}

/// Says on standard error why no session begins. Help and version aren't explained.
pub fn explain_early<R: Eprint>(rt: &R, line: &CommandLine, early: Early) {
    match early {
        Early::Help | Early::Version => {}
        Early::NoSession => {
            let front = "the words make no session; bbx --help prints which do";
            say(rt, front, "", "", None);
        }
        Early::Refused(refused) => explain_refused(rt, line, refused),
        Early::NoMemory => explain_session(rt, Status::NoMemory, "", None),
    }
}

fn explain_refused<R: Eprint>(rt: &R, line: &CommandLine, refused: Refused) {
    let (front, rest) = sentence_by(refused.cause);
    say(rt, front, line.file_of(refused.cause), rest, refused.error);
}

// One sentence in a line. Nothing is done where standard error can't be written.
fn say<R: Eprint>(rt: &R, front: &str, words: &str, rest: &str, error: Option<io::Error>) {
    let _ = match error {
        Some(error) => eprintln!(rt; "bbx: {front}{words}{rest}: {error}"),
        None => eprintln!(rt; "bbx: {front}{words}{rest}"),
    };
}

// What stands before the words of a fault line and after them. A session that is done has none.
fn sentence_of(status: Status) -> Option<(&'static str, &'static str)> {
    Some(match status {
        Status::Done => return None,
        Status::BadWords => (
            "word ",
            " of the command doesn't fit or is missing; bbx --help prints which do",
        ),
        Status::BadTree => ("the file of -i holds no devicetree that can be read: ", ""),
        Status::BadLayout => (
            "the devicetree or the device gives no place for the copies: ",
            "",
        ),
        Status::BadVariable => ("a variable isn't there, or can't have this value: ", ""),
        Status::FileMissing => ("there is no file or folder ", ""),
        Status::FileFault => ("", " can't be read"),
        Status::FileTooLong => ("", " is longer than 1048576 bytes, or a file in it is"),
        Status::ReadFault => ("the device can't be read", ""),
        Status::WriteFault => ("copy ", " can't be written"),
        Status::NoTarget | Status::StartFailed | Status::NoGood => return of_target(status),
        Status::BadSettings => ("the settings can't be used: ", ""),
        Status::BadScript | Status::ScriptFailed | Status::StepLimit => return of_script(status),
        Status::BadTarget | Status::BadSlot | Status::ImageTooLong => return of_install(status),
        Status::BadDigest | Status::LastTarget | Status::SlotFault => return of_install(status),
        Status::SinkFault => ("the output can't be written", ""),
        Status::BadKey => (
            "the state's records stand under a key, and there is none: ",
            "",
        ),
        Status::NoMemory => ("memory was refused", ""),
    })
}

// The same of those of a boot and of the target that was chosen last.
fn of_target(status: Status) -> Option<(&'static str, &'static str)> {
    match status {
        Status::NoTarget => Some(("no target has a priority and attempts left", "")),
        Status::StartFailed => Some(("no target could be started, and the last one was ", "")),
        Status::NoGood => Some(("no target was chosen last, since last_chosen is ", "")),
        _ => None,
    }
}

// The same of the statuses that only a script has.
fn of_script(status: Status) -> Option<(&'static str, &'static str)> {
    match status {
        Status::BadScript => Some(("the script can't be read: ", "")),
        Status::ScriptFailed => Some(("the script ended with status ", "")),
        Status::StepLimit => Some(("the script has more than 10000 commands and rounds", "")),
        _ => None,
    }
}

// The same of the statuses that only an install has, or a comparison.
fn of_install(status: Status) -> Option<(&'static str, &'static str)> {
    match status {
        Status::BadTarget => Some(("the settings have no target ", "")),
        Status::BadSlot => Some(("the devicetree has no such slot for the device: ", "")),
        Status::ImageTooLong => Some(("the image is longer than the slot: it has ", " bytes")),
        Status::BadDigest => Some(("the image is another, whose SHA-256 is ", "")),
        Status::LastTarget => Some(("no target has a priority and attempts left beside ", "")),
        Status::SlotFault => Some(("the slot can't be written at byte ", "")),
        _ => None,
    }
}

// What stands before the file's name and after it.
fn sentence_by(cause: Cause) -> (&'static str, &'static str) {
    match cause {
        Cause::Unseen => ("", " can't be looked at"),
        Cause::Folder => ("", " is a folder, and no device"),
        Cause::CharacterDevice => ("", " is a character device, which can't be used"),
        Cause::NoFile => ("", " is neither a regular file nor a block device"),
        Cause::Unopened => ("", " can't be opened"),
        Cause::NoFolder => ("the folder of ", " isn't there"),
        Cause::Unmade => ("", " can't be made"),
        Cause::MissingInDev => ("", " isn't there, and nothing is made below /dev"),
        Cause::MissingReadOnly => ("", " isn't there, and --read-only makes nothing"),
        Cause::Unlocked => ("", " can't be locked"),
        Cause::Unmeasured => ("the length of ", " can't be found out"),
        Cause::Short => ("", " is shorter than SIZE, and isn't filled up"),
        Cause::Unfilled => ("", " can't be filled up to SIZE"),
        Cause::PlanInSys => (
            "",
            " is below /sys, where no plan can stand; --plan=FILE names another place",
        ),
        Cause::PlanIsDevice => (
            "",
            " or its new file is the device, and no place for a plan",
        ),
        Cause::PlanIsNoFile => ("", " is no regular file, and no place for a plan"),
        Cause::Unplanned => ("no plan can be written into ", ""),
    }
}
