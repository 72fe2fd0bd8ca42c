// What `echo` sends and `test` says.
use crate::tests::rows::{Row, is};
use bb_interpreter::ScriptEnd;
use std::test::Fail;

const ROWS: [Row; 34] = [
    (b"echo", b"\n", ScriptEnd::Done(0)),
    (b"echo -n", b"", ScriptEnd::Done(0)),
    (b"echo -n a  b", b"a b", ScriptEnd::Done(0)),
    (b"echo a -n", b"a -n\n", ScriptEnd::Done(0)),
    (b"echo '' a", b" a\n", ScriptEnd::Done(0)),
    (b"echo '-n' a", b"a", ScriptEnd::Done(0)),
    (b"test a = a", b"", ScriptEnd::Done(0)),
    (b"test a = b", b"", ScriptEnd::Done(1)),
    (b"test a != b", b"", ScriptEnd::Done(0)),
    (b"test a != a", b"", ScriptEnd::Done(1)),
    (b"test a = ab", b"", ScriptEnd::Done(1)),
    (b"test -z ''", b"", ScriptEnd::Done(0)),
    (b"test -z a", b"", ScriptEnd::Done(1)),
    (b"test -n ''", b"", ScriptEnd::Done(1)),
    (b"test -n a", b"", ScriptEnd::Done(0)),
    (b"test 2 -eq 2", b"", ScriptEnd::Done(0)),
    (b"test 2 -eq 0x2", b"", ScriptEnd::Done(0)),
    (b"test 2 -ne 2", b"", ScriptEnd::Done(1)),
    (b"test 1 -lt 2", b"", ScriptEnd::Done(0)),
    (b"test 2 -lt 2", b"", ScriptEnd::Done(1)),
    (b"test 2 -le 2", b"", ScriptEnd::Done(0)),
    (b"test 3 -le 2", b"", ScriptEnd::Done(1)),
    (b"test 3 -gt 2", b"", ScriptEnd::Done(0)),
    (b"test 2 -gt 2", b"", ScriptEnd::Done(1)),
    (b"test 2 -ge 2", b"", ScriptEnd::Done(0)),
    (b"test 1 -ge 2", b"", ScriptEnd::Done(1)),
    (b"test 1 -lt x", b"", ScriptEnd::Done(2)),
    (b"test 4294967296 -gt 1", b"", ScriptEnd::Done(2)),
    (b"test", b"", ScriptEnd::Done(2)),
    (b"test a", b"", ScriptEnd::Done(2)),
    (b"test a = b c", b"", ScriptEnd::Done(2)),
    (b"[ a = a ]", b"", ScriptEnd::Done(0)),
    (b"[ a = a", b"", ScriptEnd::Done(2)),
    (b"[", b"", ScriptEnd::Done(2)),
];

#[test]
fn words(rt: HostRuntime) -> Result<(), Fail> {
    let alloc = rt.alloc();
    for row in &ROWS {
        is(&rt, alloc, *row)?;
    }
    Ok(())
}
