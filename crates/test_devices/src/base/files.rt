use super::texts::is_at;
use bb_base::{Bytes, FileFail, Files, MemFiles, NoMemory, TextList};
use std::alloc::Global;
use std::test::Fail;

fn three_files(alloc: Global) -> Result<MemFiles, NoMemory> {
    let mut files = MemFiles::none(alloc);
    files.add("a/e", b"1")?;
    files.add("a/c/d", b"2")?;
    files.add("a/b", b"3")?;
    Ok(files)
}

// Whether a file is there, or why it isn't read.
fn read(files: &mut MemFiles, name: &str, out: &mut Bytes) -> Result<bool, FileFail> {
    files.read(name, out)
}

fn names(files: &mut MemFiles, dir: &str, out: &mut TextList) -> Result<bool, FileFail> {
    files.names(dir, out)
}

fn is_now(out: &Bytes, bytes: &[u8]) -> bool {
    out.as_slice() == bytes
}

#[test]
fn a_file_is_read_behind_what_is_there(rt: HostRuntime) -> Result<(), Fail> {
    let mut files = three_files(rt.alloc())?;
    let mut out = Bytes::none(rt.alloc());
    assert!(rt; read(&mut files, "a/b", &mut out) == Ok(true));
    assert!(rt; read(&mut files, "a/c", &mut out) == Ok(false));
    assert!(rt; read(&mut files, "a/c/d", &mut out) == Ok(true));
    assert!(rt; is_now(&out, b"32"));
    files.add("a/b", b"new")?;
    assert!(rt; read(&mut files, "a/b", &mut out) == Ok(true));
    assert!(rt; is_now(&out, b"32new"));
    Ok(())
}

#[test]
fn a_folder_gives_its_own_names_in_order(rt: HostRuntime) -> Result<(), Fail> {
    let mut files = three_files(rt.alloc())?;
    let mut found = TextList::none(rt.alloc());
    assert!(rt; names(&mut files, "z", &mut found) == Ok(false));
    assert!(rt; found.is_empty());
    assert!(rt; names(&mut files, "a", &mut found) == Ok(true));
    assert!(rt; found.len() == 2);
    assert!(rt; is_at(&found, 0, "b"));
    assert!(rt; is_at(&found, 1, "e"));
    Ok(())
}

#[test]
fn a_folder_of_folders_is_there(rt: HostRuntime) -> Result<(), Fail> {
    let mut files = MemFiles::none(rt.alloc());
    files.add("a/c/d", b"1")?;
    let mut found = TextList::none(rt.alloc());
    assert!(rt; names(&mut files, "a", &mut found) == Ok(true));
    assert!(rt; names(&mut files, "c", &mut found) == Ok(false));
    assert!(rt; found.is_empty());
    Ok(())
}

fn add_zeros(
    files: &mut MemFiles,
    alloc: Global,
    name: &str,
    count: usize,
) -> Result<(), NoMemory> {
    files.add(name, vec![in alloc; 0; count]?.as_slice())
}

#[test]
fn the_longest_file_and_one_byte_more(rt: HostRuntime) -> Result<(), Fail> {
    let mut files = MemFiles::none(rt.alloc());
    add_zeros(&mut files, rt.alloc(), "full", 1_048_576)?;
    add_zeros(&mut files, rt.alloc(), "long", 1_048_577)?;
    let mut out = Bytes::none(rt.alloc());
    assert!(rt; read(&mut files, "long", &mut out) == Err(FileFail::TooLong));
    assert!(rt; out.as_slice().is_empty());
    assert!(rt; read(&mut files, "full", &mut out) == Ok(true));
    assert!(rt; out.as_slice().len() == 1_048_576);
    Ok(())
}

// Files whose second and third call fail.
fn failing_files(alloc: Global) -> Result<MemFiles, NoMemory> {
    let mut files = three_files(alloc)?;
    files.fail_call(1)?;
    files.fail_call(2)?;
    Ok(files)
}

#[test]
fn files_fail_where_they_are_told_to(rt: HostRuntime) -> Result<(), Fail> {
    let mut files = failing_files(rt.alloc())?;
    let mut out = Bytes::none(rt.alloc());
    let mut found = TextList::none(rt.alloc());
    assert!(rt; read(&mut files, "a/b", &mut out) == Ok(true));
    assert!(rt; names(&mut files, "a", &mut found) == Err(FileFail::Fault));
    assert!(rt; read(&mut files, "a/b", &mut out) == Err(FileFail::Fault));
    assert!(rt; names(&mut files, "a", &mut found) == Ok(true));
    assert!(rt; is_now(&out, b"3"));
    assert!(rt; found.len() == 2);
    Ok(())
}
