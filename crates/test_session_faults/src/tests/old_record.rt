// What voiding leaves after: a record whose front alone is gone. A later write that is torn where
// the old record and the new one begin to differ lays it bare again under a good front.
use super::entries::Entry::{One, Two, Voided};
use super::rig::Rig;
use super::steps::Step::{Does, Ends, Holds, Meets, Restarts};
use super::steps::plays_from;
use bb_flash::{Fault, Fill};
use bb_tool::Status;
use std::test::Fail;

#[test]
fn a_torn_write_can_lay_a_voided_record_bare(rt: HostRuntime) -> Result<(), Fail> {
    let steps = [
        // Copy 0 holds 1, and a session that sets 2 voids it.
        Does("state -i a.dts -s n=1", ""),
        Restarts,
        // Six reads, the writes of copies 1 and 2, and then that of copy 0, which is voided.
        Meets(8, Fault::Fail(Fill::Old)),
        Does("state -i a.dts -s n=2", ""),
        Holds(&[Voided], &[Two], &[Two]),
        // The next session is cut off in the write of copy 0.
        Restarts,
        // Five reads, and then the write of copy 0.
        Meets(5, Fault::Cut(Fill::Half)),
        Ends(
            "state -i a.dts -g n",
            Status::WriteFault,
            "fault 9 WriteFault 0\n",
        ),
        Holds(&[One], &[Two], &[Two]),
        Restarts,
        Does("state -i a.dts -g n", "1\n"),
    ];
    plays_from(&rt, rt.alloc(), Rig::Strides, [&[], &[], &[]], &steps)
}
