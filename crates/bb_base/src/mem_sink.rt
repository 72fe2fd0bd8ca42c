ghost use Rattle.std.specs.Prelude.{◌≡◌, ◌++◌, ◌∷◌, [], IfOk, OnErr, OnOk, is_err};
ghost use Rattle.bb_base.specs.Faults.{counted};
ghost use Rattle.bb_base.specs.MemSink.{after_write, sink_of, refuses_next};
ghost use Rattle.bb_base.specs.SinkRecord.{Sends, SendsFront};

use crate::planned::is_planned;
use crate::{Failed, FaultCount, NoMemory, Sink};
use std::alloc::Global;
use std::marker::Model;

/// An output in memory. It tells all that was sent, and fails where it is told to or has no room.
#[derive(Debug, Drop)]
pub struct MemSink {
    sent: Vec<u8>,
    room: u32,
    planned: Vec<u32>,
    writes: u64,
    faults: FaultCount,
}

impl Model for MemSink {
    ghost use Rattle.std.specs.Prelude.{◌≤◌, length, vec_capacity};
    ghost use Rattle.bb_base.specs.MemSink.{SinkKept};

    ghost Value = { SinkKept };

    ghost view = { λ s. record {
      sent = s.sent.items;
      room = s.room;
      planned = s.planned.items;
      writes = s.writes;
      faults = s.faults.count;
    } };

    ghost invariant = { λ s. (length s.sent.items ≤ s.room) × (s.room ≤ vec_capacity s.sent) };
}

impl MemSink {
    /// An output that takes up to `room` bytes, for which memory is taken at once.
    pub fn with_room(alloc: Global, room: u32) -> Result<MemSink, NoMemory>
        ensures { IfOk result (λ s. s
            ≡ record { sent = []; room = room; planned = []; writes = 0; faults = 0 }) }
    {
        Ok(MemSink {
            sent: Vec::with_capacity(alloc, room as usize)?,
            room,
            planned: Vec::new(alloc),
            writes: 0,
            faults: FaultCount::none(),
        })
    }

    /// Plans that the write with this number, counted from 0, sends nothing and fails.
    pub fn fail_call(&mut self, call: u32) -> Result<(), NoMemory>
        ensures ok { OnOk result (self.new
            ≡ record self.old { planned = self.old.planned ++ call ∷ [] }) }
        ensures err { OnErr result (self.new ≡ self.old) }
    {
        self.planned.push(call)?;
        Ok(())
    }

    /// All that was sent.
    pub fn sent_bytes(&self) -> &[u8]
        ensures { result.now ≡ self.now.sent }
    {
        self.sent.as_slice()
    }

    fn refuses(&self, piece: &[u8]) -> bool
        ensures { result ≡ refuses_next self.now piece.now }
    {
        let left = self.room as usize - self.sent.as_slice().len();
        is_planned(self.planned.as_slice(), self.writes) || left < piece.len()
    }
}

impl Sink for MemSink {
    ghost sink = { sink_of };

    fn write(&mut self, piece: &[u8]) -> Result<(), Failed>
        ensures sent { OnOk result (Sends piece.now (sink_of self.old) (sink_of self.new)) }
        ensures front { OnErr result
            (SendsFront piece.now (sink_of self.old) (sink_of self.new)) }
        ensures counts { self.new.faults ≡ counted (is_err result) self.old.faults }

        // It fails exactly where it is planned to or the piece doesn't fit, and then sends nothing.
        ensures exact { is_err result ≡ refuses_next self.old piece.now }
        ensures kept { self.new ≡ after_write self.old piece.now }
    {
        let refused = self.refuses(piece);
        self.writes = self.writes.saturating_add(1);
        if refused {
            self.faults.raise();
            return Err(Failed);
        }
        self.sent.extend_from_slice(piece).unwrap();
        Ok(())
    }
}
