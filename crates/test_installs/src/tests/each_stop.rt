// Installs in which each call of the device fails or is cut off, with each filling. Whatever came
// of one, the next boot starts system0 only where its slot is as it was or holds the whole image.
use super::rig::{Rig, board, boot, install, is_untouched, is_whole, session};
use bb_base::MemSink;
use bb_flash::{Fault, Fill, MemBoard};
use bb_tool::Status;
use std::alloc::Global;
use std::process::Abort;
use std::test::Fail;

// More calls than an install makes here.
const CALLS: u32 = 120;

// The fault of a number from 0 to 7: four that fail, and four cuts.
fn fault(number: u32) -> Fault {
    let fill = match number % 4 {
        0 => Fill::Old,
        1 => Fill::Half,
        2 => Fill::Junk,
        _ => Fill::Lost,
    };
    if number < 4 {
        Fault::Fail(fill)
    } else {
        Fault::Cut(fill)
    }
}

// What came of an install that met a fault at a call, or had no such call.
#[derive(Drop)]
struct Stopped {
    device: MemBoard,
    status: Status,
    met: bool,
}

fn stop_at(alloc: Global, rig: Rig, call: u32, number: u32) -> Result<Stopped, Fail> {
    let mut device = board(alloc, rig)?;
    device.plan_fault(call, fault(number))?;
    let mut out = MemSink::with_room(alloc, 300)?;
    let status = session(alloc, install(), &mut device, &mut out)?;
    let met = device.faulted();
    device.restart();
    Ok(Stopped {
        device,
        status,
        met,
    })
}

// Whether a boot that sends this started system0.
fn starts_system0(out: &MemSink) -> bool {
    out.sent_bytes().starts_with(b"start system0 ")
}

fn starts_system1(out: &MemSink) -> bool {
    out.sent_bytes().starts_with(b"start system1 ")
}

// A boot after it starts a system, and system0 only from a slot that is untouched or whole.
fn boots_safely(rt: &impl Abort, alloc: Global, rig: Rig, from: Stopped) -> Result<(), Fail> {
    let Stopped {
        mut device,
        status,
        ..
    } = from;
    let sound = is_untouched(rig, &device) || is_whole(rig, &device);
    let whole = is_whole(rig, &device);
    let mut out = MemSink::with_room(alloc, 300)?;
    let answer = session(alloc, boot(), &mut device, &mut out)?;
    assert!(rt; answer == Status::Done);
    assert!(rt; starts_system0(&out) || starts_system1(&out));
    assert!(rt; sound || starts_system1(&out));
    if status == Status::SlotFault {
        assert!(rt; starts_system1(&out));
    }
    if status == Status::Done {
        assert!(rt; whole && starts_system0(&out));
    }
    Ok(())
}

// How many calls an install has that may fail.
fn each_call(rt: &impl Abort, alloc: Global, rig: Rig, number: u32) -> Result<u32, Fail> {
    for call in 0..CALLS {
        let from = stop_at(alloc, rig, call, number)?;
        if !from.met {
            assert!(rt; from.status == Status::Done);
            return Ok(call);
        }
        boots_safely(rt, alloc, rig, from)?;
    }
    Ok(CALLS)
}

// The calls that write are among them: those of two saves and of the slot.
fn each_fault(rt: &impl Abort, alloc: Global, rig: Rig, writes: u32) -> Result<(), Fail> {
    for number in 0..8 {
        let calls = each_call(rt, alloc, rig, number)?;
        assert!(rt; writes <= calls);
        assert!(rt; calls < CALLS);
    }
    Ok(())
}

#[test]
fn in_blocks(rt: HostRuntime) -> Result<(), Fail> {
    each_fault(&rt, rt.alloc(), Rig::Blocks, 11)
}

#[test]
fn in_place(rt: HostRuntime) -> Result<(), Fail> {
    each_fault(&rt, rt.alloc(), Rig::Strides, 7)
}
