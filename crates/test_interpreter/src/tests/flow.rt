// What runs, and how often.
use crate::tests::rows::{Row, is};
use bb_interpreter::ScriptEnd;
use std::test::Fail;

const ROWS: [Row; 44] = [
    (b"", b"", ScriptEnd::Done(0)),
    (
        b"for a in 1 2; do echo $a; done",
        b"1\n2\n",
        ScriptEnd::Done(0),
    ),
    (b"false", b"", ScriptEnd::Done(1)),
    (b"false; true", b"", ScriptEnd::Done(0)),
    (b"true && echo x", b"x\n", ScriptEnd::Done(0)),
    (b"false && echo x", b"", ScriptEnd::Done(1)),
    (b"false || echo x", b"x\n", ScriptEnd::Done(0)),
    (b"true || echo x", b"", ScriptEnd::Done(0)),
    (b"false && echo x || echo y", b"y\n", ScriptEnd::Done(0)),
    (b"true || echo x && echo y", b"y\n", ScriptEnd::Done(0)),
    (
        b"if true; then echo x; else echo y; fi",
        b"x\n",
        ScriptEnd::Done(0),
    ),
    (
        b"if false; then echo x; else echo y; fi",
        b"y\n",
        ScriptEnd::Done(0),
    ),
    (
        b"if false; then echo x; elif true; then echo z; else echo y; fi",
        b"z\n",
        ScriptEnd::Done(0),
    ),
    (b"if false; then echo x; fi", b"", ScriptEnd::Done(0)),
    (b"if true; then false; fi", b"", ScriptEnd::Done(1)),
    (
        b"false; if true; then false; fi; echo $?",
        b"1\n",
        ScriptEnd::Done(0),
    ),
    (
        b"false; if false; then echo x; fi; echo $?",
        b"0\n",
        ScriptEnd::Done(0),
    ),
    (b"for a in; do echo x; done", b"", ScriptEnd::Done(0)),
    (
        b"false; for a in; do echo x; done; echo $?",
        b"0\n",
        ScriptEnd::Done(0),
    ),
    (
        b"false; for a in 1; do echo $?; done",
        b"1\n",
        ScriptEnd::Done(0),
    ),
    (b"false; for a in 1; do done", b"", ScriptEnd::Done(1)),
    (
        b"for a in 1 2; do test $a = 1; done",
        b"",
        ScriptEnd::Done(1),
    ),
    (
        b"for a in 1 2; do false; done; echo $? $a",
        b"1 2\n",
        ScriptEnd::Done(0),
    ),
    (
        b"for a in x y; do for b in 1 2; do echo $a$b; done; done",
        b"x1\nx2\ny1\ny2\n",
        ScriptEnd::Done(0),
    ),
    (
        b"a='1 2'; for b in $a 3; do echo $b; done",
        b"1\n2\n3\n",
        ScriptEnd::Done(0),
    ),
    (
        b"a='1 2'; for b in $a; do a=9; echo $b$a; done",
        b"19\n29\n",
        ScriptEnd::Done(0),
    ),
    (b"nothing x", b"", ScriptEnd::Done(127)),
    (b"nothing || echo $?", b"127\n", ScriptEnd::Done(0)),
    (b"$a", b"", ScriptEnd::Done(0)),
    (b"false; $a", b"", ScriptEnd::Done(0)),
    (b"'' x", b"", ScriptEnd::Done(127)),
    (b"true a b && false c", b"", ScriptEnd::Done(1)),
    (b"save; save", b"1\n2\n", ScriptEnd::Done(0)),
    (b"echo x; start; echo y", b"x\n", ScriptEnd::Started),
    (
        b"for a in 1 2; do start; echo y; done",
        b"",
        ScriptEnd::Started,
    ),
    (b"echo x; break; echo y", b"x\n", ScriptEnd::Fault),
    (b"kept.it=3; echo $kept.it", b"3\n", ScriptEnd::Done(0)),
    (b"kept.it=x; echo $? $kept.it", b"1 7\n", ScriptEnd::Done(0)),
    (
        b"kept.it=x || echo no; echo $kept.it",
        b"no\n7\n",
        ScriptEnd::Done(0),
    ),
    (
        b"for kept.it in 1 x; do echo $? $kept.it; done",
        b"0 1\n0 1\n",
        ScriptEnd::Done(0),
    ),
    (b"false; a=1; echo $?$a", b"01\n", ScriptEnd::Done(0)),
    (b"a=1; a=2; b=3; echo $a$b", b"23\n", ScriptEnd::Done(0)),
    (
        b"a=' x  y '; b=$a; echo \"$b\"",
        b" x  y \n",
        ScriptEnd::Done(0),
    ),
    (
        b"a=x=y\"z w\"'$a'$?; echo \"$a\"",
        b"x=yz w$a0\n",
        ScriptEnd::Done(0),
    ),
];

#[test]
fn flow(rt: HostRuntime) -> Result<(), Fail> {
    let alloc = rt.alloc();
    for row in &ROWS {
        is(&rt, alloc, *row)?;
    }
    Ok(())
}
