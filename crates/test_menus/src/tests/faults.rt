// Faults of the files, at each call.
use super::rig::{same, stands};
use bb_base::{MemFiles, NoMemory};
use bb_menu::{Menu, MenuFault, read_menu};
use std::alloc::Global;
use std::process::Abort;
use std::test::Fail;

// A folder of two entries and another file: three calls, one for the names and one for each entry.
fn folder(alloc: Global, fails: u32) -> Result<MemFiles, NoMemory> {
    let mut files = MemFiles::none(alloc);
    for name in ["m/a.conf", "m/b.conf", "m/c.txt"] {
        files.add(name, b"linux /z\n")?;
    }
    files.fail_call(fails)?;
    Ok(files)
}

fn menu(alloc: Global, files: &mut MemFiles) -> Result<Menu, MenuFault> {
    read_menu(alloc, "m", files)
}

fn meets_a_fault(rt: &impl Abort, alloc: Global, files: &mut MemFiles) {
    same(rt, menu(alloc, files).err(), Some(MenuFault::FileFault));
}

fn is_whole(rt: &impl Abort, alloc: Global, files: &mut MemFiles) -> Result<(), Fail> {
    let menu = menu(alloc, files)?;
    stands(rt, &menu, &["b.conf", "a.conf"]);
    Ok(())
}

// After a fault the next menu is whole.
#[test]
fn a_fault_at_each_call(rt: HostRuntime) -> Result<(), Fail> {
    for call in 0..3 {
        let mut files = folder(rt.alloc(), call)?;
        meets_a_fault(&rt, rt.alloc(), &mut files);
        is_whole(&rt, rt.alloc(), &mut files)?;
    }
    Ok(())
}

// No call is made of a file that no menu takes in: the fourth call is the second menu's first.
#[test]
fn no_call_more(rt: HostRuntime) -> Result<(), Fail> {
    let mut files = folder(rt.alloc(), 3)?;
    is_whole(&rt, rt.alloc(), &mut files)?;
    meets_a_fault(&rt, rt.alloc(), &mut files);
    is_whole(&rt, rt.alloc(), &mut files)
}
