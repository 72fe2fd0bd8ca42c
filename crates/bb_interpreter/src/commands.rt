ghost use Rattle.std.specs.Prelude.{◌≡◌, IfOk, OnErr, true};
ghost use Rattle.bb_interpreter.specs.Outside.{is_done_reply, set_reply_of};

use bb_base::{Bytes, NoMemory};
use std::alloc::Global;

/// What setting a variable from outside does.
#[derive(Clone, Copy, Debug, PartialEq, Eq)]
pub enum SetReply {
    /// The outside has no variable of this name.
    Unknown,
    /// It has one that refuses the value, and keeps its own.
    Refused,
    Set,
}

/// What a command from outside answers.
#[derive(Debug, Drop)]
pub enum Reply {
    /// It ended with this status, and sends this text.
    Done(u32, Bytes),
    /// It started a target, so that no command comes after it, and sends this text.
    Started(Bytes),
    /// The device failed.
    Fault,
    /// An allocation was refused.
    NoMemory,
}

/// The commands and variables that a script has from outside.
pub trait Commands {
    ghost use Rattle.std.specs.Prelude.{List, ℕ};
    ghost use Rattle.bb_interpreter.specs.declared.commands.Reply.{Reply};
    ghost use Rattle.bb_interpreter.specs.Outside.{Outside};

    /// What the commands act on beside themselves.
    type Device;

    /// The variables, and the names of the commands.
    ghost outside: { Outside Self };

    /// Commands may be called.
    ghost can_call: { Self → Self.Device → Type 0 };

    /// What a command answers, and what it leaves.
    ghost call_gives: { List (List ℕ) → Self → Self.Device → Reply → Self → Self.Device → Type 0 };

    /// The value of the variable of this name, or none where the outside has no such variable.
    fn value(&self, alloc: Global, name: &[u8]) -> Result<Option<Bytes>, NoMemory>
        ensures { IfOk result (λ value. value ≡ outside.value_of self.now name.now) };

    /// Sets the variable of this name.
    fn set(&mut self, alloc: Global, name: &[u8], value: &[u8]) -> Result<SetReply, NoMemory>
        ensures ok { IfOk result (λ setting. (setting, self.new)
            ≡ set_reply_of self.old (outside.set_by self.old name.now value.now)) }
        ensures err { OnErr result (self.new ≡ self.old) }
        ensures ready { (device : Self.Device) → can_call self.old device
            → can_call self.new device };

    /// Whether the outside has a command of this name.
    fn has_command(&self, name: &[u8]) -> bool
        ensures { result ≡ outside.is_command name.now };

    /// Runs the command that these words, of which the first is its name, say.
    fn call(&mut self, alloc: Global, words: &[Bytes], device: &mut Self::Device) -> Reply
        requires { can_call self.old device.old }
        ensures gives { call_gives words.now self.old device.old result self.new device.new }
        ensures ready { is_done_reply result ≡ true → can_call self.new device.new };
}
