// Boot entries.
use super::checks::same;
use bb_base::{Text, TextList};
use bb_bls::{Entry, EntryError, read_entry};
use std::alloc::Global;
use std::process::Abort;
use std::test::Fail;

fn entry(alloc: Global, text: &[u8]) -> Result<Entry, Fail> {
    Ok(read_entry(alloc, text)?)
}

fn refusal(alloc: Global, text: &[u8]) -> Option<EntryError> {
    read_entry(alloc, text).err()
}

fn has_text(rt: &impl Abort, text: &Text, wanted: &str) {
    same(rt, text.as_str(), wanted);
}

// The text at this place of a list, and it is this.
fn is_at(rt: &impl Abort, list: &TextList, place: usize, wanted: &str) {
    same(rt, list.get(place).map(|text| text.as_str()), Some(wanted));
}

// The example of the Boot Loader Specification.
fn published_text() -> &'static [u8] {
    b"# /boot/loader/entries/6a9857a393724b7a981ebb5b8495b9ea-3.8.0-2.fc19.x86_64.conf\n\
      title        Fedora 19 (Rawhide)\n\
      sort-key     fedora\n\
      machine-id   6a9857a393724b7a981ebb5b8495b9ea\n\
      version      3.8.0-2.fc19.x86_64\n\
      options      root=UUID=6d3376e4-fc93-4509-95ec-a21d68011da2 quiet\n\
      architecture x64\n\
      linux        /6a9857a393724b7a981ebb5b8495b9ea/3.8.0-2.fc19.x86_64/linux\n\
      initrd       /6a9857a393724b7a981ebb5b8495b9ea/3.8.0-2.fc19.x86_64/initrd\n"
}

#[test]
fn published_entry(rt: HostRuntime) -> Result<(), Fail> {
    let entry = entry(rt.alloc(), published_text())?;
    has_text(&rt, &entry.title, "Fedora 19 (Rawhide)");
    has_text(&rt, &entry.sort_key, "fedora");
    has_text(&rt, &entry.machine_id, "6a9857a393724b7a981ebb5b8495b9ea");
    has_text(&rt, &entry.version, "3.8.0-2.fc19.x86_64");
    let options = "root=UUID=6d3376e4-fc93-4509-95ec-a21d68011da2 quiet";
    has_text(&rt, &entry.options, options);
    has_text(&rt, &entry.architecture, "x64");
    let linux = "/6a9857a393724b7a981ebb5b8495b9ea/3.8.0-2.fc19.x86_64/linux";
    has_text(&rt, &entry.linux, linux);
    has_text(&rt, &entry.devicetree, "");
    same(&rt, entry.initrds.len(), 1);
    Ok(())
}

fn text_with_repeated_keys() -> &'static [u8] {
    b"linux /a\r\n\toptions  quiet \r\n\r\ninitrd /i\r\nlinux\t/b\r\noptions\r\n# linux /c\r\n\
      options\ta  b\r\ninitrd /j\r\nefi /e\r\noptions rw\r\ndevicetree /d.dtb"
}

#[test]
fn repeated_keys_and_blanks(rt: HostRuntime) -> Result<(), Fail> {
    let entry = entry(rt.alloc(), text_with_repeated_keys())?;
    has_text(&rt, &entry.linux, "/b");
    has_text(&rt, &entry.options, "quiet a  b rw");
    is_at(&rt, &entry.initrds, 0, "/i");
    is_at(&rt, &entry.initrds, 1, "/j");
    same(&rt, entry.initrds.len(), 2);
    has_text(&rt, &entry.devicetree, "/d.dtb");
    Ok(())
}

fn texts_without_a_kernel() -> &'static [&'static str] {
    &[
        "",
        "\n\n",
        "# linux /z\n",
        "title a\noptions rw\n",
        "linux\nlinux \t\n",
    ]
}

#[test]
fn texts_that_are_no_entry(rt: HostRuntime) {
    for text in texts_without_a_kernel() {
        let cause = refusal(rt.alloc(), text.as_bytes());
        assert_eq!(rt; cause, Some(EntryError::NoLinux), "at {text:?}");
    }
    let cause = refusal(rt.alloc(), b"linux /\xff\n");
    same(&rt, cause, Some(EntryError::NotText));
}

// A kernel, and a comment up to this length.
fn long_entry(alloc: Global, len: usize) -> Result<Vec<u8>, Fail> {
    let mut text = Vec::new(alloc);
    text.extend_from_slice(b"linux /z\n")?;
    for _ in 9..len {
        text.push(b'#')?;
    }
    Ok(text)
}

#[test]
fn the_longest_entry_and_one_byte_more(rt: HostRuntime) -> Result<(), Fail> {
    let full = long_entry(rt.alloc(), 65_536)?;
    let entry = entry(rt.alloc(), full.as_slice())?;
    has_text(&rt, &entry.linux, "/z");
    let long = long_entry(rt.alloc(), 65_537)?;
    let cause = refusal(rt.alloc(), long.as_slice());
    same(&rt, cause, Some(EntryError::TooLong));
    Ok(())
}
