// A script, what it sends, and how it ends.
use crate::tests::outside::Shelf;
use bb_base::Bytes;
use bb_interpreter::{ScriptEnd, ScriptRun};
use bb_script::read_script;
use std::alloc::Global;
use std::process::Abort;
use std::test::Fail;

pub type Row = (&'static [u8], &'static [u8], ScriptEnd);

pub fn is(rt: &impl Abort, alloc: Global, row: Row) -> Result<(), Fail> {
    let (script, text, end) = row;
    let script = read_script(alloc, script)?;
    let mut kept = Bytes::none(alloc);
    kept.add(b"7")?;
    let mut run = ScriptRun::new(alloc, Shelf { kept });
    let mut device = 0u32;
    let ended = run.run(&script, &mut device);
    assert_eq!(rt; run.text.as_slice(), text);
    assert_eq!(rt; ended, end);
    Ok(())
}
