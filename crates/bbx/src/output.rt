ghost use Rattle.std.specs.Prelude.{◌≡◌, None};

use bb_base::{Bytes, Failed, FaultCount, Sink};
use std::alloc::Global;
use std::io;
use std::io::Write;

/// An output of the system. It doesn't tell what was sent, and counts the writes that failed.
#[derive(Drop)]
pub struct Out<W: Write> {
    writer: W,
    faults: FaultCount,
    error: Option<io::Error>,
    // Whether a fault line that is sent is kept.
    keeps_line: bool,
    // The fault line that was sent last while it was, as far as memory was found for it.
    line: Bytes,
}

impl<W: Write> Out<W> {
    pub fn new(alloc: Global, writer: W) -> Out<W> {
        Out {
            writer,
            faults: FaultCount::none(),
            error: None,
            keeps_line: false,
            line: Bytes::none(alloc),
        }
    }

    /// From now on the fault line that is sent is kept for `fault_words`. Without it no text is
    /// looked through.
    pub fn keep_line(&mut self)
        ensures { self.new.faults ≡ self.old.faults }
    {
        self.keeps_line = true;
    }

    /// The system's error at the write that failed last.
    pub fn error(&self) -> Option<io::Error> {
        self.error
    }
}

impl<W: Write> Out<W> {
    /// What stands after the third word of the fault line that was kept, if one was.
    pub fn fault_words(&self) -> &str {
        let line = str::from_utf8(self.line.as_slice()).unwrap_or("");
        line.splitn(4, ' ').nth(3).unwrap_or("")
    }
}

impl<W: Write> Sink for Out<W> {
    ghost sink = { λ o. record { sent = None; faults = o.faults.count } };

    fn write(&mut self, piece: &[u8]) -> Result<(), Failed> {
        if let Err(error) = self.writer.write_all(piece) {
            self.error = Some(error);
            self.faults.raise();
            return Err(Failed);
        }
        if self.keeps_line {
            keep_fault(&mut self.line, last_line(piece));
        }
        Ok(())
    }
}

// The last line of a text that ends in LF, without it.
fn last_line(text: &[u8]) -> &[u8] {
    let lines = text.strip_suffix(b"\n").unwrap_or(text);
    lines.rsplit(|byte| *byte == b'\n').next().unwrap_or(lines)
}

// Keeps a line that is a fault's. Where memory is refused it isn't kept.
fn keep_fault(kept: &mut Bytes, line: &[u8]) {
    if line.starts_with(b"fault ") {
        let _ = kept.add(line);
    }
}
