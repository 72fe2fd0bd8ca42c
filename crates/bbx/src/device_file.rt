use crate::disk;
use crate::open_error::{Cause, OpenError};
use crate::place::{Tree, is_in};
use std::alloc::Global;
use std::fs::{File, FileType, OpenOptions};
use std::io::{ErrorKind, Seek, SeekFrom};
use std::os::fd::AsRawFd;
use std::os::unix::fs::FileTypeExt;
use std::rt::Files;
use std::{fs, io};

/// How a device is opened.
#[derive(Clone, Copy)]
pub enum Access {
    /// For reading and writing. A regular file that is absent or short is made or filled up.
    Full,
    /// For reading alone. Nothing is made or filled up.
    ReadOnly,
}

// What a device stands in.
#[derive(Clone, Copy)]
enum Kind {
    RegularFile,
    BlockDevice,
}

impl Kind {
    fn of(found: FileType) -> Result<Kind, OpenError> {
        if found.is_file() {
            return Ok(Kind::RegularFile);
        }
        if found.is_block_device() {
            return Ok(Kind::BlockDevice);
        }
        Err(OpenError::because(cause_of(found)))
    }
}

// What is wrong with a file of neither kind.
fn cause_of(found: FileType) -> Cause {
    if found.is_dir() {
        return Cause::Folder;
    }
    if found.is_char_device() {
        return Cause::CharacterDevice;
    }
    Cause::NoFile
}

/// Opens the file of a device of `size` bytes, for this session alone until it is closed. A regular
/// file that is absent or short is filled up to `size` with 0xFF, and is on the disk then, unless
/// it is in /dev or may only be read. A block device has to be as long, and nothing of it is
/// written. What can only be read is taken too.
pub fn open_device<R: Files<File = File> + AllocGlobal>(
    rt: &R,
    path: &str,
    size: u64,
    access: Access,
) -> Result<File, OpenError> {
    let opened = open_any(rt, path, access)?;
    let mut file = off_the_outputs(opened).map_err(|error| OpenError::at(Cause::Unopened, error))?;
    let found = file
        .metadata()
        .map_err(|error| OpenError::at(Cause::Unseen, error))?;
    let kind = Kind::of(found.file_type())?;
    lock(&file).map_err(|error| OpenError::at(Cause::Unlocked, error))?;
    let len = file
        .seek(SeekFrom::End(0))
        .map_err(|error| OpenError::at(Cause::Unmeasured, error))?;
    match (kind, access) {
        _ if size <= len => Ok(file),
        (Kind::RegularFile, Access::Full) => filled_up(rt, path, file, len, size),
        _ => Err(OpenError::because(Cause::Short)),
    }
}

// Opens what is at the path, or makes a file there. What can't be a device isn't opened at all: the
// opening alone of a FIFO may never end, and that of a character device may set something off.
fn open_any<R: Files<File = File> + AllocGlobal>(
    rt: &R,
    path: &str,
    access: Access,
) -> Result<File, OpenError> {
    match fs::metadata(rt, path) {
        Ok(found) => {
            Kind::of(found.file_type())?;
            open_existing(rt, path, access).map_err(|error| OpenError::at(Cause::Unopened, error))
        }
        Err(error) if error.kind() == ErrorKind::NotFound => make(rt, path, access),
        Err(error) => Err(OpenError::at(Cause::Unseen, error)),
    }
}

// For reading and writing, or for reading alone where that is asked for or the system refuses more.
fn open_existing<R: Files<File = File>>(rt: &R, path: &str, access: Access) -> io::Result<File> {
    match access {
        Access::ReadOnly => File::open(rt, path),
        Access::Full => match OpenOptions::new().read(true).write(true).open(rt, path) {
            Err(error) if error.kind() != ErrorKind::OutOfMemory => File::open(rt, path),
            answer => answer,
        },
    }
}

// Another session may make the file first: then this one takes it as it is.
fn make<R: Files<File = File> + AllocGlobal>(
    rt: &R,
    path: &str,
    access: Access,
) -> Result<File, OpenError> {
    if is_in_dev(rt, path)? {
        return Err(OpenError::because(Cause::MissingInDev));
    }
    if let Access::ReadOnly = access {
        return Err(OpenError::because(Cause::MissingReadOnly));
    }
    let mut options = OpenOptions::new();
    options.read(true).write(true).create(true);
    options
        .open(rt, path)
        .map_err(|error| OpenError::at(Cause::Unmade, error))
}

// Whether nothing may be made or filled up at the path.
fn is_in_dev<R: Files<File = File> + AllocGlobal>(rt: &R, path: &str) -> Result<bool, OpenError> {
    match is_in(rt, Tree::Dev, path) {
        Ok(there) => Ok(there),
        Err(error) if error.kind() == ErrorKind::NotFound => {
            Err(OpenError::at(Cause::NoFolder, error))
        }
        Err(error) => Err(OpenError::at(Cause::Unmade, error)),
    }
}

const STANDARD_OUTPUT: i32 = 1;

const STANDARD_ERROR: i32 = 2;

// Where standard output or standard error is closed, the system gives its descriptor to the next
// file that is opened, and what is printed would go into the device. The file is moved to another.
fn off_the_outputs(file: File) -> io::Result<File> {
    match file.as_raw_fd() {
        STANDARD_OUTPUT | STANDARD_ERROR => file.try_clone(),
        _ => Ok(file),
    }
}

// What NFS answers to an exclusive lock of a file that is open for reading alone.
const EBADF: i32 = 9;

// What a file system answers that has no lock to give.
const ENOLCK: i32 = 37;

// Waits until no other session has the file. A file system without locks is taken without.
fn lock(file: &File) -> io::Result<()> {
    match file.lock() {
        Err(error) if is_without_locks(&error) => Ok(()),
        Err(error) if error.raw_os_error() == Some(EBADF) => file.lock_shared(),
        answer => answer,
    }
}

// The answers ENOSYS and EOPNOTSUPP are of the kind `Unsupported`.
fn is_without_locks(error: &io::Error) -> bool {
    error.kind() == ErrorKind::Unsupported || error.raw_os_error() == Some(ENOLCK)
}

// The file, filled up from `len` bytes to `size`, unless it is in /dev. It may have just been made,
// by this session or by another, so its name is on the disk before it has its whole length.
fn filled_up<R: Files<File = File> + AllocGlobal>(
    rt: &R,
    path: &str,
    file: File,
    len: u64,
    size: u64,
) -> Result<File, OpenError> {
    if is_in_dev(rt, path)? {
        return Err(OpenError::because(Cause::Short));
    }
    disk::keep_name(rt, path)
        .and_then(|()| disk::lengthen(&file, len, size))
        .map_err(|error| OpenError::at(Cause::Unfilled, error))?;
    Ok(file)
}
