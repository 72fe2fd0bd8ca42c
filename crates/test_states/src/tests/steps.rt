// What is done with a state and its board, step by step, and what is found then.
ghost use Rattle.std.specs.Prelude.{◌≡◌};
ghost use Rattle.bb_flash.specs.Memory.{device_of};
ghost use Rattle.bb_state.specs.State.{IsOn};

use bb_flash::MemBoard;
use bb_state::{CopyFault, Loaded, State};
use std::process::Abort;

/// A step, and what it gives.
#[derive(Clone, Copy)]
pub enum Step {
    /// Loads, with this answer.
    Loads(Loaded),
    /// Gives the variable this value.
    Sets(&'static [u8]),
    /// Saves, with this answer.
    Saves(Result<(), CopyFault>),
    /// Saves whatever was last loaded or saved.
    SavesAlways,
    /// The variable has this value.
    Has(u8),
    /// The board holds these bytes.
    Holds([u8; 192]),
    /// So many reads, programs and erases of the board answered Ok.
    Counts([u64; 3]),
}

/// Plays these steps, one after the other.
pub fn plays(rt: &impl Abort, state: &mut State, board: &mut MemBoard, steps: &[Step])
    requires { IsOn state.old (device_of board.old) }
    ensures geometry { board.new.geometry ≡ board.old.geometry }
    ensures on { IsOn state.new (device_of board.new) }
{
    for step in steps {
        play(rt, state, board, *step);
    }
}

fn play(rt: &impl Abort, state: &mut State, board: &mut MemBoard, step: Step)
    requires { IsOn state.old (device_of board.old) }
    ensures geometry { board.new.geometry ≡ board.old.geometry }
    ensures on { IsOn state.new (device_of board.new) }
{
    match step {
        Step::Loads(answer) => load(rt, state, board, answer),
        Step::Sets(value) => set(rt, state, value),
        Step::Saves(answer) => save(rt, state, board, answer),
        Step::SavesAlways => save_always(rt, state, board),
        Step::Has(value) => has(rt, state, value),
        Step::Holds(bytes) => holds(rt, board, &bytes),
        Step::Counts(counts) => has_counts(rt, board, counts),
    }
}

fn load(rt: &impl Abort, state: &mut State, board: &mut MemBoard, answer: Loaded)
    requires { IsOn state.old (device_of board.old) }
    ensures geometry { board.new.geometry ≡ board.old.geometry }
    ensures on { IsOn state.new (device_of board.new) }
{
    let loaded = state.load(board);
    assert_eq!(rt; loaded, Ok(answer));
}

fn set(rt: &impl Abort, state: &mut State, value: &[u8])
    ensures { state.new.backing ≡ state.old.backing }
{
    let set = state.set("a.n", value);
    assert_eq!(rt; set, Ok(()));
}

fn save(rt: &impl Abort, state: &mut State, board: &mut MemBoard, answer: Result<(), CopyFault>)
    requires { IsOn state.old (device_of board.old) }
    ensures geometry { board.new.geometry ≡ board.old.geometry }
    ensures on { IsOn state.new (device_of board.new) }
{
    let saved = state.save(board);
    assert_eq!(rt; saved, answer);
}

fn save_always(rt: &impl Abort, state: &mut State, board: &mut MemBoard)
    requires { IsOn state.old (device_of board.old) }
    ensures geometry { board.new.geometry ≡ board.old.geometry }
    ensures on { IsOn state.new (device_of board.new) }
{
    let saved = state.save_always(board);
    assert_eq!(rt; saved, Ok(()));
}

fn has(rt: &impl Abort, state: &State, value: u8) {
    assert_eq!(rt; state.table.bytes(), [value].as_slice());
}

fn holds(rt: &impl Abort, board: &MemBoard, bytes: &[u8]) {
    assert_eq!(rt; board.bytes(), bytes);
}

fn has_counts(rt: &impl Abort, board: &MemBoard, counts: [u64; 3]) {
    let found = [board.reads(), board.programs(), board.erase_count()];
    assert_eq!(rt; found, counts);
}
