// The menus of folders in memory.
use super::rig::{same, stands};
use bb_base::MemFiles;
use bb_menu::{MenuFault, MenuItem, read_menu, read_menu_text};
use std::alloc::Global;
use std::process::Abort;
use std::test::Fail;

// A file: its name, the front of its text, and as many of a byte after it.
pub type FileRow = (&'static str, &'static [u8], u8, usize);

// Files, the folder that is asked for, and the names of its menu in their order.
type MenuRow = (&'static [FileRow], &'static str, &'static [&'static str]);

pub fn files_of(alloc: Global, rows: &[FileRow]) -> Result<MemFiles, Fail> {
    let mut files = MemFiles::none(alloc);
    for (name, front, byte, count) in rows {
        let mut text = Vec::new(alloc);
        text.extend_from_slice(front)?;
        text.resize(front.len().saturating_add(*count), *byte)?;
        files.add(name, text.as_slice())?;
    }
    Ok(files)
}

// The worked folder: five entries, one of which has a sort key, and a file with another ending.
pub fn worked_folder() -> &'static [FileRow] {
    &[
        ("m/a.conf", b"title Board\nlinux /z", b' ', 0),
        ("m/b-1.2.conf", b"title Board\nlinux /z", b' ', 0),
        ("m/b-1.10.conf", b"title Board\nlinux /z", b' ', 0),
        ("m/b-1.2~rc.conf", b"title Board\nlinux /z", b' ', 0),
        ("m/z.conf", b"title Board\nlinux /z\nsort-key m", b' ', 0),
        ("m/x.txt", b"title Board\nlinux /z", b' ', 0),
        ("m2/f.conf", b"linux /z", b' ', 0),
    ]
}

// A folder in which no file is taken, and one deeper.
pub fn without_entries() -> &'static [FileRow] {
    &[
        ("m/deep/a.conf", b"linux /z", b' ', 0),
        ("m/a.txt", b"linux /z", b' ', 0),
        ("m/.conf", b"linux /z", b' ', 0),
        ("m/a.CONF", b"linux /z", b' ', 0),
        ("m/conf", b"linux /z", b' ', 0),
        ("m/b.conf", b"title Board", b' ', 0),
        ("m/c.conf", b"", b' ', 0),
    ]
}

// Names with blanks and line ends, and names that begin with a `/`.
pub fn odd_names() -> &'static [FileRow] {
    &[
        ("m/a b.conf", b"linux /z", b' ', 0),
        ("m/a\nb.conf", b"linux /z", b' ', 0),
        ("m/..conf", b"linux /z", b' ', 0),
        ("/a.conf", b"linux /z", b' ', 0),
    ]
}

// Entries of 65,536 bytes, of one more and of 1,048,576 bytes, and a longer file that none takes.
fn long_files() -> &'static [FileRow] {
    &[
        ("m/a.conf", b"linux /z\n", b'#', 65_527),
        ("m/b.conf", b"linux /z\n", b'#', 65_528),
        ("m/c.conf", b"linux /z\n", b'#', 1_048_567),
        ("m/d.txt", b"linux /z\n", b'#', 1_048_568),
    ]
}

// Versions of 65,000 digits: c has a zero more and the same number as b, and a has a greater one.
fn long_versions() -> &'static [FileRow] {
    &[
        ("m/b.conf", b"linux /z\nsort-key s\nversion ", b'1', 65_000),
        ("m/c.conf", b"linux /z\nsort-key s\nversion 0", b'1', 65_000),
        ("m/a.conf", b"linux /z\nsort-key s\nversion 2", b'1', 64_999),
        ("m/d.conf", b"linux /z\nsort-key s\nversion ", b'.', 65_000),
        ("m/e.conf", b"linux /z\nsort-key s\n", b' ', 0),
    ]
}

// Names of 255 bytes that differ in the last letter alone.
fn long_names() -> &'static [FileRow] {
    &[
        (
            "m/aaaaaaaaaaaaaaaaaaaaaaaaaaaaaaaaaaaaaaaaaaaaaaaaaaaaaaaaaaaaaaaaaaaaaa\
             aaaaaaaaaaaaaaaaaaaaaaaaaaaaaaaaaaaaaaaaaaaaaaaaaaaaaaaaaaaaaaaaaaaaaa\
             aaaaaaaaaaaaaaaaaaaaaaaaaaaaaaaaaaaaaaaaaaaaaaaaaaaaaaaaaaaaaaaaaaaaaa\
             aaaaaaaaaaaaaaaaaaaaaaaaaaaaaaaaaaaaaaab.conf",
            b"linux /z",
            b' ',
            0,
        ),
        (
            "m/aaaaaaaaaaaaaaaaaaaaaaaaaaaaaaaaaaaaaaaaaaaaaaaaaaaaaaaaaaaaaaaaaaaaaa\
             aaaaaaaaaaaaaaaaaaaaaaaaaaaaaaaaaaaaaaaaaaaaaaaaaaaaaaaaaaaaaaaaaaaaaa\
             aaaaaaaaaaaaaaaaaaaaaaaaaaaaaaaaaaaaaaaaaaaaaaaaaaaaaaaaaaaaaaaaaaaaaa\
             aaaaaaaaaaaaaaaaaaaaaaaaaaaaaaaaaaaaaaac.conf",
            b"linux /z",
            b' ',
            0,
        ),
    ]
}

// A text that isn't UTF-8 is no entry.
fn no_text() -> &'static [FileRow] {
    &[
        ("m/a.conf", b"linux /\xff\n", b' ', 0),
        ("m/b.conf", b"linux /z\n", b' ', 0),
    ]
}

// Machines and versions beside a sort key, and without one.
fn sorted() -> &'static [FileRow] {
    &[
        (
            "m/a.conf",
            b"linux /z\nsort-key s\nmachine-id 2\nversion 9\n",
            b' ',
            0,
        ),
        (
            "m/b.conf",
            b"linux /z\nsort-key s\nmachine-id 1\nversion 1\n",
            b' ',
            0,
        ),
        (
            "m/c.conf",
            b"linux /z\nsort-key r\nmachine-id 9\nversion 0\n",
            b' ',
            0,
        ),
        ("m/d.conf", b"linux /z\nmachine-id 1\nversion 99\n", b' ', 0),
        (
            "m/e.conf",
            b"linux /z\nsort-key s\nmachine-id 1\nversion 2\n",
            b' ',
            0,
        ),
    ]
}

fn menus() -> [MenuRow; 7] {
    [
        (
            worked_folder(),
            "m",
            &[
                "z.conf",
                "b-1.10.conf",
                "b-1.2.conf",
                "b-1.2~rc.conf",
                "a.conf",
            ],
        ),
        (worked_folder(), "m2", &["f.conf"]),
        (without_entries(), "m", &[]),
        (odd_names(), "m", &["a\nb.conf", "a b.conf", "..conf"]),
        (odd_names(), "", &["a.conf"]),
        (no_text(), "m", &["b.conf"]),
        (
            sorted(),
            "m",
            &["c.conf", "e.conf", "b.conf", "a.conf", "d.conf"],
        ),
    ]
}

fn menus_of_long_files() -> [MenuRow; 3] {
    [
        (long_files(), "m", &["a.conf"]),
        (
            long_versions(),
            "m",
            &["a.conf", "c.conf", "b.conf", "d.conf", "e.conf"],
        ),
        (
            long_names(),
            "m",
            &[
                "aaaaaaaaaaaaaaaaaaaaaaaaaaaaaaaaaaaaaaaaaaaaaaaaaaaaaaaaaaaaaaaaaaaaaa\
                 aaaaaaaaaaaaaaaaaaaaaaaaaaaaaaaaaaaaaaaaaaaaaaaaaaaaaaaaaaaaaaaaaaaaaa\
                 aaaaaaaaaaaaaaaaaaaaaaaaaaaaaaaaaaaaaaaaaaaaaaaaaaaaaaaaaaaaaaaaaaaaaa\
                 aaaaaaaaaaaaaaaaaaaaaaaaaaaaaaaaaaaaaaac.conf",
                "aaaaaaaaaaaaaaaaaaaaaaaaaaaaaaaaaaaaaaaaaaaaaaaaaaaaaaaaaaaaaaaaaaaaaa\
                 aaaaaaaaaaaaaaaaaaaaaaaaaaaaaaaaaaaaaaaaaaaaaaaaaaaaaaaaaaaaaaaaaaaaaa\
                 aaaaaaaaaaaaaaaaaaaaaaaaaaaaaaaaaaaaaaaaaaaaaaaaaaaaaaaaaaaaaaaaaaaaaa\
                 aaaaaaaaaaaaaaaaaaaaaaaaaaaaaaaaaaaaaaab.conf",
            ],
        ),
    ]
}

// Each folder has its menu.
fn stand(rt: &impl Abort, alloc: Global, menus: &[MenuRow]) -> Result<(), Fail> {
    for (rows, dir, wanted) in menus {
        let mut files = files_of(alloc, rows)?;
        let menu = read_menu(alloc, dir, &mut files)?;
        stands(rt, &menu, wanted);
    }
    Ok(())
}

#[test]
fn the_menus_of_folders(rt: HostRuntime) -> Result<(), Fail> {
    stand(&rt, rt.alloc(), &menus())
}

#[test]
fn the_menus_of_long_files(rt: HostRuntime) -> Result<(), Fail> {
    stand(&rt, rt.alloc(), &menus_of_long_files())
}

// What an entry has in a menu is what its file says.
#[test]
fn the_first_entry(rt: HostRuntime) -> Result<(), Fail> {
    let mut files = files_of(rt.alloc(), worked_folder())?;
    let menu = read_menu(rt.alloc(), "m", &mut files)?;
    let Some(first) = menu.into_first() else {
        return Err(Fail::from("no entry"));
    };
    is_z(&rt, &first);
    Ok(())
}

fn is_z(rt: &impl Abort, item: &MenuItem) {
    same(rt, item.name.as_str(), "z.conf");
    same(rt, item.entry.title.as_str(), "Board");
    same(rt, item.entry.sort_key.as_str(), "m");
    same(rt, item.entry.linux.as_str(), "/z");
}

// A file of 1,048,577 bytes that a menu takes in.
fn too_long() -> &'static [FileRow] {
    &[
        ("m/a.conf", b"linux /z", b' ', 0),
        ("m/b.conf", b"linux /z\n", b'#', 1_048_568),
    ]
}

// Folders without a menu. A file is no folder, and neither is the front of a folder's name.
fn refused() -> [(&'static [FileRow], &'static str, MenuFault); 4] {
    [
        (worked_folder(), "none", MenuFault::NoFolder),
        (worked_folder(), "m/a.conf", MenuFault::NoFolder),
        (worked_folder(), "m2/f", MenuFault::NoFolder),
        (too_long(), "m", MenuFault::FileTooLong),
    ]
}

fn is_refused(rt: &impl Abort, fault: Option<MenuFault>, wanted: MenuFault, dir: &str) {
    assert_eq!(rt; fault, Some(wanted), "at {dir:?}");
}

fn refuses(rt: &impl Abort, alloc: Global, files: &mut MemFiles, dir: &str, wanted: MenuFault) {
    is_refused(rt, read_menu(alloc, dir, files).err(), wanted, dir);
    is_refused(rt, read_menu_text(alloc, dir, files).err(), wanted, dir);
}

#[test]
fn folders_without_a_menu(rt: HostRuntime) -> Result<(), Fail> {
    for (rows, dir, wanted) in refused() {
        let mut files = files_of(rt.alloc(), rows)?;
        refuses(&rt, rt.alloc(), &mut files, dir, wanted);
    }
    Ok(())
}
