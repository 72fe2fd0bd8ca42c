use bb_base::{MemSink, NoMemory, Sink};
use std::alloc::Global;
use std::test::Fail;

// Whether the piece is taken.
fn takes(sink: &mut MemSink, piece: &[u8]) -> bool {
    sink.write(piece).is_ok()
}

fn failing_sink(alloc: Global) -> Result<MemSink, NoMemory> {
    let mut sink = MemSink::with_room(alloc, 3)?;
    sink.fail_call(1)?;
    Ok(sink)
}

#[test]
fn a_sink_fails_where_it_is_told_to_or_full(rt: HostRuntime) -> Result<(), Fail> {
    let mut sink = failing_sink(rt.alloc())?;
    assert!(rt; takes(&mut sink, b"ab"));
    assert!(rt; !takes(&mut sink, b"c"));
    assert!(rt; !takes(&mut sink, b"cd"));
    assert!(rt; takes(&mut sink, b"c"));
    assert!(rt; sink.sent_bytes() == b"abc".as_slice());
    Ok(())
}
