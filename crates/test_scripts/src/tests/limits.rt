// The limits of a script: its length, UTF-8, and how many `if` and `for` are open.
use bb_base::{Bytes, NoMemory};
use bb_script::{NESTING_LIMIT, SCRIPT_LIMIT, ScriptError, read_script};
use std::alloc::Global;
use std::test::Fail;

// So many copies of a text, one after another.
fn repeated(alloc: Global, text: &[u8], count: usize) -> Result<Bytes, NoMemory> {
    let mut all = Bytes::none(alloc);
    for _ in 0..count {
        all.add(text)?;
    }
    Ok(all)
}

#[test]
fn length(rt: HostRuntime) -> Result<(), Fail> {
    let alloc = rt.alloc();
    let most = repeated(alloc, b"a", SCRIPT_LIMIT)?;
    assert_eq!(rt; read_script(alloc, most.as_slice()).err(), None);
    let more = repeated(alloc, b"|", 65_537)?;
    let found = read_script(alloc, more.as_slice()).err();
    assert_eq!(rt; found, Some(ScriptError::TooLong));
    Ok(())
}

#[test]
fn no_text(rt: HostRuntime) -> Result<(), Fail> {
    let alloc = rt.alloc();
    let found = read_script(alloc, b"a | \xff").err();
    assert_eq!(rt; found, Some(ScriptError::NotText));
    assert_eq!(rt; read_script(alloc, "echo é".as_bytes()).err(), None);
    Ok(())
}

#[test]
fn depth(rt: HostRuntime) -> Result<(), Fail> {
    let alloc = rt.alloc();
    let open = repeated(alloc, b"if ", NESTING_LIMIT)?;
    let found = read_script(alloc, open.as_slice()).err();
    assert_eq!(rt; found, Some(ScriptError::Unclosed(45)));
    let deeper = repeated(alloc, b"if ", 17)?;
    let found = read_script(alloc, deeper.as_slice()).err();
    assert_eq!(rt; found, Some(ScriptError::TooDeep(48)));
    Ok(())
}

#[test]
fn depth_of_loops(rt: HostRuntime) -> Result<(), Fail> {
    let alloc = rt.alloc();
    let mut text = repeated(alloc, b"for a in b; do ", NESTING_LIMIT)?;
    let ends = repeated(alloc, b"done; ", NESTING_LIMIT)?;
    text.add(ends.as_slice())?;
    assert_eq!(rt; read_script(alloc, text.as_slice()).err(), None);
    let mut deeper = repeated(alloc, b"for a in b; do ", 17)?;
    deeper.add(ends.as_slice())?;
    let found = read_script(alloc, deeper.as_slice()).err();
    assert_eq!(rt; found, Some(ScriptError::TooDeep(240)));
    Ok(())
}
