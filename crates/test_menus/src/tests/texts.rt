// The texts of menus.
use super::folders::{FileRow, files_of, odd_names, without_entries, worked_folder};
use super::rig::same;
use bb_menu::read_menu_text;
use std::alloc::Global;
use std::process::Abort;
use std::test::Fail;

// Entries with an empty title, without one and with one of blanks, which is none.
fn without_titles() -> &'static [FileRow] {
    &[
        ("m/a b.conf", b"linux /boot/z image", b' ', 0),
        ("m/b.conf", b"title\nlinux /z", b' ', 0),
        ("m/c.conf", b"title \t \nlinux /y", b' ', 0),
        ("m/d.conf", b"title A  title\nlinux /x", b' ', 0),
    ]
}

// Files, the folder that is asked for, and the text of its menu.
fn texts() -> [(&'static [FileRow], &'static str, &'static [u8]); 5] {
    [
        (
            worked_folder(),
            "m",
            b"z.conf Board\nb-1.10.conf Board\nb-1.2.conf Board\nb-1.2~rc.conf Board\n\
              a.conf Board\n",
        ),
        (worked_folder(), "m2", b"f.conf /z\n"),
        (without_entries(), "m", b""),
        (odd_names(), "m", b"a\nb.conf /z\na b.conf /z\n..conf /z\n"),
        (
            without_titles(),
            "m",
            b"d.conf A  title\nc.conf /y\nb.conf /z\na b.conf /boot/z image\n",
        ),
    ]
}

fn tells(
    rt: &impl Abort,
    alloc: Global,
    rows: &[FileRow],
    dir: &str,
    wanted: &[u8],
) -> Result<(), Fail> {
    let mut files = files_of(alloc, rows)?;
    let text = read_menu_text(alloc, dir, &mut files)?;
    same(rt, text.as_slice(), wanted);
    Ok(())
}

#[test]
fn the_texts_of_menus(rt: HostRuntime) -> Result<(), Fail> {
    for (rows, dir, wanted) in texts() {
        tells(&rt, rt.alloc(), rows, dir, wanted)?;
    }
    Ok(())
}
