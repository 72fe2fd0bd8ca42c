// Scripts that are refused, each with the first offset that decides.
use bb_script::{ScriptError, read_script};
use std::alloc::Global;
use std::process::Abort;
use std::test::Fail;

fn refusal(alloc: Global, text: &[u8]) -> Option<ScriptError> {
    read_script(alloc, text).err()
}

fn is_unexpected(rt: &impl Abort, alloc: Global, text: &[u8], at: usize) {
    assert_eq!(rt; refusal(alloc, text), Some(ScriptError::Unexpected(at)));
}

fn is_unclosed(rt: &impl Abort, alloc: Global, text: &[u8], at: usize) {
    assert_eq!(rt; refusal(alloc, text), Some(ScriptError::Unclosed(at)));
}

#[test]
fn characters_outside_of_the_language(rt: HostRuntime) -> Result<(), Fail> {
    let alloc = rt.alloc();
    is_unexpected(&rt, alloc, b"a | b", 2);
    is_unexpected(&rt, alloc, b"a &", 2);
    is_unexpected(&rt, alloc, b"(a)", 0);
    is_unexpected(&rt, alloc, b"a)", 1);
    is_unexpected(&rt, alloc, b"a>b", 1);
    is_unexpected(&rt, alloc, b"a <b", 2);
    is_unexpected(&rt, alloc, b"a`b", 1);
    is_unexpected(&rt, alloc, b"$(a)", 1);
    Ok(())
}

#[test]
fn expansions_without_a_name(rt: HostRuntime) -> Result<(), Fail> {
    let alloc = rt.alloc();
    is_unexpected(&rt, alloc, b"${a", 0);
    is_unexpected(&rt, alloc, b"x${}", 1);
    is_unexpected(&rt, alloc, b"${?}", 0);
    is_unexpected(&rt, alloc, b"if ${", 3);
    is_unexpected(&rt, alloc, b"\"a${b\"", 2);
    Ok(())
}

#[test]
fn separators_in_a_wrong_place(rt: HostRuntime) -> Result<(), Fail> {
    let alloc = rt.alloc();
    is_unexpected(&rt, alloc, b";", 0);
    is_unexpected(&rt, alloc, b"a;;", 2);
    is_unexpected(&rt, alloc, b"&& a", 0);
    is_unexpected(&rt, alloc, b"a &&", 4);
    is_unexpected(&rt, alloc, b"a && ; b", 5);
    is_unexpected(&rt, alloc, b"a\n|| b", 2);
    is_unexpected(&rt, alloc, b"if; then fi", 2);
    is_unexpected(&rt, alloc, b"for a in b; ; do c; done", 12);
    is_unexpected(&rt, alloc, b"for a in b && c; do d; done", 11);
    is_unexpected(&rt, alloc, b"for a\nin b; do c; done", 5);
    Ok(())
}

#[test]
fn keywords_in_a_wrong_place(rt: HostRuntime) -> Result<(), Fail> {
    let alloc = rt.alloc();
    is_unexpected(&rt, alloc, b"then", 0);
    is_unexpected(&rt, alloc, b"a; do", 3);
    is_unexpected(&rt, alloc, b"a && fi", 5);
    is_unexpected(&rt, alloc, b"if a; fi", 6);
    is_unexpected(&rt, alloc, b"if a; then b; fi then", 17);
    is_unexpected(&rt, alloc, b"if a; then b; else c; elif d; then e; fi", 22);
    is_unexpected(&rt, alloc, b"for a in b; do c; fi", 18);
    is_unexpected(&rt, alloc, b"for a in b; done", 12);
    Ok(())
}

#[test]
fn words_in_a_wrong_place(rt: HostRuntime) -> Result<(), Fail> {
    let alloc = rt.alloc();
    is_unexpected(&rt, alloc, b"if a; then b; fi \"c", 17);
    is_unexpected(&rt, alloc, b"fi \"a", 0);
    is_unexpected(&rt, alloc, b"for 'a' in b; do c; done", 4);
    is_unexpected(&rt, alloc, b"for a 'in' b; do c; done", 6);
    is_unexpected(&rt, alloc, b"for a-b in c; do d; done", 4);
    is_unexpected(&rt, alloc, b"for \"a", 4);
    is_unexpected(&rt, alloc, b"for a in b; 'do' c; done", 12);
    Ok(())
}

#[test]
fn texts_that_end_inside_of_something(rt: HostRuntime) -> Result<(), Fail> {
    let alloc = rt.alloc();
    is_unclosed(&rt, alloc, b"echo \"a", 5);
    is_unclosed(&rt, alloc, b"a 'b\\'c'", 7);
    is_unclosed(&rt, alloc, b"a \"b\\\"", 2);
    is_unclosed(&rt, alloc, b"if test a = a; then echo x", 0);
    is_unclosed(&rt, alloc, b"if a; then \"b", 11);
    is_unclosed(&rt, alloc, b"if a; then for b in c", 11);
    is_unclosed(&rt, alloc, b"for a in b; do if c; then d; fi", 0);
    is_unclosed(&rt, alloc, b"for", 0);
    is_unclosed(&rt, alloc, b"x; if a &&", 3);
    Ok(())
}

#[test]
fn a_backslash_at_the_end(rt: HostRuntime) -> Result<(), Fail> {
    let alloc = rt.alloc();
    is_unexpected(&rt, alloc, b"a\\", 2);
    is_unexpected(&rt, alloc, b"a \\", 3);
    is_unexpected(&rt, alloc, b"\\", 1);
    is_unclosed(&rt, alloc, b"if a\\", 0);
    is_unclosed(&rt, alloc, b"for a\\", 0);
    is_unclosed(&rt, alloc, b"a \"\\", 2);
    Ok(())
}
