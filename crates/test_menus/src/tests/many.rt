// A folder of many entries.
use super::rig::same;
use bb_base::MemFiles;
use bb_menu::read_menu;
use std::alloc::Global;
use std::process::Abort;
use std::test::Fail;

fn many_files(alloc: Global) -> Result<MemFiles, Fail> {
    let mut files = MemFiles::none(alloc);
    for number in 0..1000 {
        add_numbered(alloc, &mut files, number)?;
    }
    Ok(files)
}

fn add_numbered(alloc: Global, files: &mut MemFiles, number: u32) -> Result<(), Fail> {
    let path = format!(in alloc; "m/b-{number}.conf")?;
    files.add(path.as_str(), b"linux /z\n")?;
    Ok(())
}

fn is_numbered(rt: &impl Abort, alloc: Global, name: &str, number: usize) -> Result<(), Fail> {
    let wanted = format!(in alloc; "b-{number}.conf")?;
    same(rt, name, wanted.as_str());
    Ok(())
}

// A thousand entries, the greatest of which stands in front, and the others as they fall.
#[test]
fn a_thousand_entries(rt: HostRuntime) -> Result<(), Fail> {
    let mut files = many_files(rt.alloc())?;
    let menu = read_menu(rt.alloc(), "m", &mut files)?;
    same(&rt, menu.len(), 1000);
    for place in 0..1000usize {
        let name = menu.name(place).ok_or("a name")?;
        is_numbered(
            &rt,
            rt.alloc(),
            name.as_str(),
            999usize.saturating_sub(place),
        )?;
    }
    Ok(())
}
