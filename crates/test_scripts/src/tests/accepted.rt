// Scripts that are read, and how many steps they have.
use bb_script::{Script, ScriptCommand, SpeltScript, read_script};
use std::alloc::Global;
use std::process::Abort;
use std::test::Fail;

fn script(alloc: Global, text: &[u8]) -> Result<Script, Fail> {
    Ok(read_script(alloc, text)?)
}

fn has_steps(rt: &impl Abort, alloc: Global, text: &[u8], wanted: usize) -> Result<(), Fail> {
    let script = script(alloc, text)?;
    assert_eq!(rt; script.steps.len(), wanted);
    Ok(())
}

#[test]
fn a_spelt_script_has_its_steps(rt: HostRuntime) -> Result<(), Fail> {
    let spelt = SpeltScript::read(rt.alloc(), b"a && b; c")?;
    assert_eq!(rt; spelt.as_script().steps.len(), 3);
    Ok(())
}

#[test]
fn lists(rt: HostRuntime) -> Result<(), Fail> {
    let alloc = rt.alloc();
    has_steps(&rt, alloc, b"", 0)?;
    has_steps(&rt, alloc, b"\n\n # a; b\n", 0)?;
    has_steps(&rt, alloc, b"a", 1)?;
    has_steps(&rt, alloc, b"a;b\nc;", 3)?;
    has_steps(&rt, alloc, b"a\r\nb\r\n", 2)?;
    has_steps(&rt, alloc, b"a && \n\n b || c", 3)?;
    has_steps(&rt, alloc, b"a # ' \" $( \nb", 2)?;
    has_steps(&rt, alloc, b"a\0b", 1)
}

#[test]
fn keywords_that_are_words(rt: HostRuntime) -> Result<(), Fail> {
    let alloc = rt.alloc();
    has_steps(&rt, alloc, b"echo if then fi; do_it", 2)?;
    has_steps(&rt, alloc, b"'if'; i\\f; \"then\"", 3)?;
    has_steps(&rt, alloc, b"in a", 1)?;
    has_steps(&rt, alloc, b"for if in in do; do x; done", 1)?;
    has_steps(&rt, alloc, b"i\\\nf a; then b; fi", 1)?;
    has_steps(&rt, alloc, b"if then fi; for a in; do done", 2)
}

#[test]
fn commands(rt: HostRuntime) -> Result<(), Fail> {
    let script = script(
        rt.alloc(),
        b"a=b; c d; if e; then f; fi; for g in h; do i; done",
    )?;
    assert_eq!(rt; script.steps.len(), 4);
    assert!(rt; matches!(script.steps[0].command, ScriptCommand::Set(_)));
    assert!(rt; matches!(script.steps[1].command, ScriptCommand::Call(_)));
    assert!(rt; matches!(script.steps[2].command, ScriptCommand::If(_)));
    assert!(rt; matches!(script.steps[3].command, ScriptCommand::For(_)));
    Ok(())
}
