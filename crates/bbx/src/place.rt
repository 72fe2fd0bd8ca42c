use std::alloc::Global;
use std::io::ErrorKind;
use std::path::{Path, PathBuf};
use std::rt::Files;
use std::{fs, io};

/// A tree of the system's own, in which files aren't made like others.
#[derive(Clone, Copy)]
pub enum Tree {
    /// `/dev` and what is below it, but for `/dev/shm`.
    Dev,
    /// `/sys` and what is below it.
    Sys,
}

impl Tree {
    // Whether a folder, by its path without links, is in the tree.
    fn has(self, folder: Path<'_>) -> bool {
        match self {
            Tree::Dev => folder.starts_with("/dev") && !folder.starts_with("/dev/shm"),
            Tree::Sys => folder.starts_with("/sys"),
        }
    }
}

// The most links that the system follows in a path.
const MOST_LINKS: u32 = 40;

// What the system answers to a path with more of them.
const ELOOP: i32 = 40;

/// Whether the file at a path, or a link that leads to it, stands in a folder of the tree, or would
/// be made there. Links are followed as the system follows them, to the last one that is there.
pub fn is_in<R: Files<File = fs::File> + AllocGlobal>(
    rt: &R,
    tree: Tree,
    path: &str,
) -> io::Result<bool> {
    let mut path = PathBuf::from_str(rt.alloc(), path)?;
    for _ in 0..MOST_LINKS {
        let folder = folder_of(rt, path.as_str())?;
        if tree.has(folder.as_path()) {
            return Ok(true);
        }
        match target_of(rt, path.as_str())? {
            Some(target) => path = folder.join(rt.alloc(), target)?,
            None => return Ok(false),
        }
    }
    Err(io::Error::from_raw_os_error(ELOOP))
}

/// The folder in which the name at a path's end stands, by its path without links.
pub fn folder_of<R: Files<File = fs::File> + AllocGlobal>(
    rt: &R,
    path: &str,
) -> io::Result<PathBuf> {
    match Path::new(path).parent() {
        Some(folder) if !folder.as_str().is_empty() => fs::canonicalize(rt, folder),
        _ => fs::canonicalize(rt, "."),
    }
}

// Where the link at a path leads, if there is one.
fn target_of<R: Files<File = fs::File> + AllocGlobal>(
    rt: &R,
    path: &str,
) -> io::Result<Option<PathBuf>> {
    match fs::read_link(rt, path) {
        Ok(target) => Ok(Some(target)),
        Err(error) if error.kind() == ErrorKind::OutOfMemory => Err(error),
        Err(_) => Ok(None),
    }
}
