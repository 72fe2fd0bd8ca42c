ghost use Rattle.std.specs.Prelude.{◌≡◌, ◌<◌, ◌++◌, ◌↔◌, false, true, length};
ghost use Rattle.std.specs.Prelude.{IfOk, IsErrOf, None, OnErr, OnOk};
ghost use Rattle.bb_base.specs.Faults.{counted};
ghost use Rattle.bb_base.specs.Folder.{file_limit, is_fault};
ghost use Rattle.bb_base.specs.declared.files.FileFail.TheVariants.{Fault, TooLong};

use bb_base::{Bytes, FILE_LIMIT, FaultCount, FileFail, Files, NoMemory, Text, TextList};
use std::alloc::Global;
use std::fs::{DirEntry, File};
use std::io::{ErrorKind, Read};
use std::{fs, io};

/// Files of the system, by paths from the folder that the program runs in. They don't tell what
/// they hold, and count the calls that met a fault. What the system doesn't find isn't there; every
/// other error of it is a fault.
#[derive(Drop)]
pub struct RealFiles<'r> {
    rt: &'r HostRuntime,
    faults: FaultCount,
    error: Option<io::Error>,
}

impl<'r> RealFiles<'r> {
    pub fn new(rt: &'r HostRuntime) -> RealFiles<'r> {
        RealFiles {
            rt,
            faults: FaultCount::none(),
            error: None,
        }
    }

    /// The system's error at the call that met one last.
    pub fn error(&self) -> Option<io::Error> {
        self.error
    }

    // What a call answers at an error of the system. A fault is counted.
    fn answer_to(&mut self, error: &io::Error) -> Result<bool, FileFail>
        ensures missing { IfOk result (λ there. there ≡ false) }
        ensures never_long { ¬ IsErrOf result TooLong }
        ensures counts { self.new.faults.count ≡ counted (is_fault result) self.old.faults.count }
    {
        self.error = Some(*error);
        match error.kind() {
            ErrorKind::NotFound => Ok(false),
            ErrorKind::OutOfMemory => Err(FileFail::NoMemory),
            _ => {
                self.faults.raise();
                Err(FileFail::Fault)
            }
        }
    }
}

impl<'r> Files for RealFiles<'r> {
    ghost folder = { λ f. record { told = None; faults = f.faults.count } };

    fn read(&mut self, name: &str, out: &mut Bytes) -> Result<bool, FileFail> {
        let bytes = match read_front(self.rt, name) {
            Ok(bytes) => bytes,
            Err(error) => return self.answer_to(&error),
        };
        take_file(bytes.as_slice(), out)
    }

    fn names(&mut self, dir: &str, out: &mut TextList) -> Result<bool, FileFail> {
        let names = match list(self.rt, dir) {
            Ok(names) => names,
            Err(error) => return self.answer_to(&error),
        };
        out.append(texts_of(self.rt.alloc(), &names)?)?;
        Ok(true)
    }
}

// Appends a file's bytes, of which the system gave one more than it may have at most.
fn take_file(bytes: &[u8], out: &mut Bytes) -> Result<bool, FileFail>
    ensures too_long { IsErrOf result TooLong ↔ file_limit < length bytes.now }
    ensures never_fault { ¬ IsErrOf result Fault }
    ensures there { IfOk result (λ there. there ≡ true) }
    ensures appended { OnOk result (out.new ≡ out.old ++ bytes.now) }
    ensures err { OnErr result (out.new ≡ out.old) }
{
    if bytes.len() > FILE_LIMIT {
        return Err(FileFail::TooLong);
    }
    out.add(bytes)?;
    Ok(true)
}

// A file's bytes, up to one more than it may have.
fn read_front(rt: &HostRuntime, name: &str) -> io::Result<Vec<u8>> {
    let mut bytes = Vec::new(rt.alloc());
    let mut front = File::open(rt, name)?.take(FILE_LIMIT as u64 + 1);
    front.read_to_end(&mut bytes)?;
    Ok(bytes)
}

// The names of the files in a folder, in rising order of their bytes. It is opened by its name with
// a `/` behind it, so that no name stands for the root. A name that isn't UTF-8 is an error.
fn list(rt: &HostRuntime, dir: &str) -> io::Result<Vec<String>> {
    let folder = format!(in rt.alloc(); "{dir}/")?;
    let mut names = Vec::new(rt.alloc());
    for entry in fs::read_dir(rt, folder.as_str())? {
        let entry = entry?;
        if is_file(rt, &entry)? {
            names.push(String::from_str(rt.alloc(), entry.file_name())?)?;
        }
    }
    names.sort_unstable();
    Ok(names)
}

fn texts_of(alloc: Global, names: &[String]) -> Result<TextList, NoMemory> {
    let mut texts = TextList::none(alloc);
    for name in names {
        texts.push(Text::of(alloc, name.as_str())?)?;
    }
    Ok(texts)
}

// Whether a name in a folder is a file's. That of a folder, or of a link to nothing, isn't.
fn is_file(rt: &HostRuntime, entry: &DirEntry<HostRuntime>) -> io::Result<bool> {
    match fs::metadata(rt, entry.path()) {
        Ok(found) => Ok(!found.is_dir()),
        Err(error) if error.kind() == ErrorKind::NotFound => Ok(false),
        Err(error) => Err(error),
    }
}
