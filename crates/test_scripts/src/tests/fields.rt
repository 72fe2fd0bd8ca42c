// The fields of a command, where every variable has one value and the last status is 7.
use bb_base::{Bytes, NoMemory};
use bb_script::{EXPANSION_LIMIT, ScriptCommand, ScriptVariables, expand_words, read_script};
use std::alloc::Global;
use std::process::Abort;
use std::test::Fail;

#[derive(Drop)]
struct Everywhere<'a> {
    value: &'a [u8],
}

impl ScriptVariables for Everywhere<'_> {
    ghost value_of = { λ v _. v.value.now };

    fn value(&self, alloc: Global, _name: &[u8]) -> Result<Bytes, NoMemory> {
        let mut copy = Bytes::none(alloc);
        copy.add(self.value)?;
        Ok(copy)
    }
}

// The fields of the first command, or none where they have too many bytes.
fn fields(alloc: Global, text: &[u8], value: &[u8]) -> Result<Option<Vec<Bytes>>, Fail> {
    let script = read_script(alloc, text)?;
    let step = script.steps.as_slice().first().ok_or("no step")?;
    match &step.command {
        ScriptCommand::Call(words) => {
            let variables = Everywhere { value };
            Ok(expand_words(alloc, words.as_slice(), &variables, 7)?)
        }
        _ => Ok(None),
    }
}

// Each field stands between `<` and `>`.
fn shown(alloc: Global, fields: &[Bytes]) -> Result<Bytes, NoMemory> {
    let mut all = Bytes::none(alloc);
    for field in fields {
        all.add(b"<")?;
        all.add(field.as_slice())?;
        all.add(b">")?;
    }
    Ok(all)
}

fn are(
    rt: &impl Abort,
    alloc: Global,
    text: &[u8],
    value: &[u8],
    wanted: &[u8],
) -> Result<(), Fail> {
    let fields = fields(alloc, text, value)?.ok_or("too long")?;
    let shown = shown(alloc, fields.as_slice())?;
    assert_eq!(rt; shown.as_slice(), wanted);
    Ok(())
}

#[test]
fn cut_and_quoted(rt: HostRuntime) -> Result<(), Fail> {
    let alloc = rt.alloc();
    are(&rt, alloc, b"a$v", b" x  y ", b"<a><x><y>")?;
    are(&rt, alloc, b"\"a$v\"", b" x  y ", b"<a x  y >")?;
    are(&rt, alloc, b"'$v' b", b" x  y ", b"<$v><b>")?;
    are(&rt, alloc, b"$v''", b" x  y ", b"<x><y><>")?;
    are(&rt, alloc, b"${v}c", b"x\ty\nz", b"<x><y><zc>")?;
    are(&rt, alloc, b"\\$v a\\ b", b"x", b"<$v><a b>")
}

#[test]
fn empty_values(rt: HostRuntime) -> Result<(), Fail> {
    let alloc = rt.alloc();
    are(&rt, alloc, b"e $v \"$v\" ''", b"", b"<e><><>")?;
    are(&rt, alloc, b"$v$v", b"", b"")?;
    are(&rt, alloc, b"$v", b" \t\n", b"")?;
    are(&rt, alloc, b"x$? \"$?\"", b"", b"<x7><7>")
}

fn letters(alloc: Global, count: usize) -> Result<Bytes, NoMemory> {
    let mut all = Bytes::none(alloc);
    for _ in 0..count {
        all.add(b"a")?;
    }
    Ok(all)
}

#[test]
fn too_many_bytes(rt: HostRuntime) -> Result<(), Fail> {
    let alloc = rt.alloc();
    let most = letters(alloc, EXPANSION_LIMIT)?;
    assert!(rt; fields(alloc, b"$v ''", most.as_slice())?.is_some());
    assert!(rt; fields(alloc, b"$v b", most.as_slice())?.is_none());
    let more = letters(alloc, 4_097)?;
    assert!(rt; fields(alloc, b"\"$v\"", more.as_slice())?.is_none());
    Ok(())
}
