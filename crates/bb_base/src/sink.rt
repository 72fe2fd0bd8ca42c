ghost use Rattle.std.specs.Prelude.{◌≡◌, OnErr, OnOk, is_err};
ghost use Rattle.bb_base.specs.Faults.{counted};
ghost use Rattle.bb_base.specs.SinkRecord.{SinkRecord, Sends, SendsFront};

use crate::Failed;

/// An output that bytes are sent to, in pieces.
pub trait Sink {
    /// What was sent, where the output tells it, and its count of faults.
    ghost sink: { Self → SinkRecord };

    /// Sends the whole piece, or fails after some front of it. A call that fails is counted once,
    /// and one that answers Ok not at all; the count stands still at 2^64 - 1.
    fn write(&mut self, piece: &[u8]) -> Result<(), Failed>
        ensures sent { OnOk result (Sends piece.now (sink self.old) (sink self.new)) }
        ensures front { OnErr result (SendsFront piece.now (sink self.old) (sink self.new)) }
        ensures counts { (sink self.new).faults
            ≡ counted (is_err result) (sink self.old).faults };
}
