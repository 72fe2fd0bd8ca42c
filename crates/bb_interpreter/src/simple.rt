ghost use Rattle.std.specs.Prelude.{◌≡◌, IfOk, IfErr, OnOk, map, true};
ghost use Rattle.std.specs.Option.{option_map};
ghost use Rattle.bb_script.specs.Fields.{expansion_of};
ghost use Rattle.bb_script.specs.Tree.{call, set_command_of};
ghost use Rattle.bb_script.specs.Words.{word_atoms};
ghost use Rattle.bb_interpreter.specs.Echo.{echo_text};
ghost use Rattle.bb_interpreter.specs.Means.{does_built_in, does_fields, does_outside};
ghost use Rattle.bb_interpreter.specs.Means.{next_answer};
ghost use Rattle.bb_interpreter.specs.Means.{means_command, puts, replied, sends};
ghost use Rattle.bb_interpreter.specs.Outside.{is_done_reply, set_status};
ghost use Rattle.bb_interpreter.specs.Standing.{counts_one};
ghost use Rattle.bb_interpreter.specs.Runs.{Leads, ending, LeftBy, script_values};

use crate::assigned::{assigned_name, expand_value};
use crate::built_in::{BuiltIn, built_in_of};
use crate::commands::{Commands, Reply, SetReply};
use crate::echo::echo_text;
use crate::run::ScriptRun;
use crate::stop::ScriptStop;
use crate::test_words::{brackets_status, test_status};
use crate::variables::set_own;
use bb_base::{Bytes, NoMemory};
use bb_script::{Assignment, Word, expand_words};

/// How many commands and rounds a script may have.
const STEP_LIMIT: u32 = 10_000;

/// Counts a command or a round more.
pub(crate) fn count<C: Commands>(run: &mut ScriptRun<C>) -> Result<(), ScriptStop>
    ensures leads { (device : C.Device) → Leads C.call_gives (LeftBy result) counts_one
        (ending result) run.old run.new device device }
    ensures commands { run.new.commands ≡ run.old.commands }
{
    if run.count >= STEP_LIMIT {
        return Err(ScriptStop::StepLimit);
    }
    run.count += 1;
    Ok(())
}

/// The fields of these words, as variables now stand: none where they have too many bytes.
pub(crate) fn expanded<C: Commands>(
    words: &[Word],
    run: &ScriptRun<C>,
) -> Result<Option<Vec<Bytes>>, ScriptStop>
    ensures fields { IfOk result (λ fields. option_map (λ f. f.items) fields
        ≡ expansion_of (script_values C.outside run.now) run.now.status
        (map word_atoms words.now)) }
    ensures memory { IfErr result (λ e. e ≡ ScriptStop.NoMemory) }
{
    Ok(expand_words(run.alloc, words, run, run.status)?)
}

/// Sets a variable, and answers the status of an assignment that does so.
pub(crate) fn put<C: Commands>(
    name: &[u8],
    value: &[u8],
    run: &mut ScriptRun<C>,
) -> Result<u32, ScriptStop>
    ensures leads { (device : C.Device) → Leads C.call_gives (LeftBy result)
        (puts C.outside name.now value.now) (ending result) run.old run.new device device }
    ensures status { IfOk result (λ status. status
        ≡ set_status (C.outside.set_by run.old.commands name.now value.now)) }
    ensures ready { (device : C.Device) → C.can_call run.old.commands device
        → C.can_call run.new.commands device }
{
    match run.commands.set(run.alloc, name, value)? {
        SetReply::Unknown => {
            set_own(run.alloc, &mut run.variables, name, value)?;
            Ok(0)
        }
        SetReply::Refused => Ok(1),
        SetReply::Set => Ok(0),
    }
}

/// Runs an assignment.
pub(crate) fn run_set<C: Commands>(
    assignment: &Assignment,
    run: &mut ScriptRun<C>,
    device: &mut C::Device,
) -> Result<(), ScriptStop>
    requires { C.can_call run.old.commands device.old }
    ensures leads { Leads C.call_gives (LeftBy result) (means_command C.outside next_answer
        (set_command_of assignment.now.name_len (word_atoms assignment.now.word)))
        (ending result) run.old run.new device.old device.new }
    ensures ready { OnOk result (C.can_call run.new.commands device.new) }
{
    count(run)?;
    match expand_value(run.alloc, assignment, run, run.status)? {
        None => {
            run.status = 1;
            Ok(())
        }
        Some(value) => {
            let status = put(assigned_name(assignment), value.as_slice(), run)?;
            run.status = status;
            Ok(())
        }
    }
}

/// Runs a command of these words.
pub(crate) fn run_call<C: Commands>(
    words: &[Word],
    run: &mut ScriptRun<C>,
    device: &mut C::Device,
) -> Result<(), ScriptStop>
    requires { C.can_call run.old.commands device.old }
    ensures leads { Leads C.call_gives (LeftBy result)
        (means_command C.outside next_answer (call (map word_atoms words.now))) (ending result)
        run.old run.new device.old device.new }
    ensures ready { OnOk result (C.can_call run.new.commands device.new) }
{
    count(run)?;
    match expanded(words, run)? {
        None => {
            run.status = 1;
            Ok(())
        }
        Some(fields) => run_fields(fields.as_slice(), run, device),
    }
}

fn run_fields<C: Commands>(
    fields: &[Bytes],
    run: &mut ScriptRun<C>,
    device: &mut C::Device,
) -> Result<(), ScriptStop>
    requires { C.can_call run.old.commands device.old }
    ensures leads { Leads C.call_gives (LeftBy result)
        (does_fields C.outside next_answer fields.now)
        (ending result) run.old run.new device.old device.new }
    ensures ready { OnOk result (C.can_call run.new.commands device.new) }
{
    let Some((name, words)) = fields.split_first() else {
        run.status = 0;
        return Ok(());
    };
    match built_in_of(name.as_slice()) {
        Some(built_in) => run_built_in(built_in, words, run),
        None => run_outside(name.as_slice(), fields, run, device),
    }
}

fn run_built_in<C: Commands>(
    built_in: BuiltIn,
    words: &[Bytes],
    run: &mut ScriptRun<C>,
) -> Result<(), ScriptStop>
    ensures leads { (device : C.Device) → Leads C.call_gives (LeftBy result)
        (does_built_in built_in words.now) (ending result) run.old run.new device device }
    ensures commands { run.new.commands ≡ run.old.commands }
{
    match built_in {
        BuiltIn::Echo => {
            send_echo(words, run)?;
            run.status = 0;
            Ok(())
        }
        BuiltIn::True => {
            run.status = 0;
            Ok(())
        }
        BuiltIn::False => {
            run.status = 1;
            Ok(())
        }
        BuiltIn::Test => {
            run.status = test_status(words);
            Ok(())
        }
        BuiltIn::Brackets => {
            run.status = brackets_status(words);
            Ok(())
        }
    }
}

fn send_echo<C: Commands>(words: &[Bytes], run: &mut ScriptRun<C>) -> Result<(), ScriptStop>
    ensures leads { (device : C.Device) → Leads C.call_gives (LeftBy result)
        (sends (echo_text words.now)) (ending result) run.old run.new device device }
    ensures commands { run.new.commands ≡ run.old.commands }
{
    let text = echo_text(run.alloc, words)?;
    send(text.as_slice(), run)
}

fn send<C: Commands>(text: &[u8], run: &mut ScriptRun<C>) -> Result<(), ScriptStop>
    ensures leads { (device : C.Device) → Leads C.call_gives (LeftBy result)
        (sends text.now) (ending result) run.old run.new device device }
    ensures commands { run.new.commands ≡ run.old.commands }
{
    run.text.add(text)?;
    Ok(())
}

fn run_outside<C: Commands>(
    name: &[u8],
    fields: &[Bytes],
    run: &mut ScriptRun<C>,
    device: &mut C::Device,
) -> Result<(), ScriptStop>
    requires { C.can_call run.old.commands device.old }
    ensures leads { Leads C.call_gives (LeftBy result)
        (does_outside C.outside next_answer name.now fields.now) (ending result)
        run.old run.new device.old device.new }
    ensures ready { OnOk result (C.can_call run.new.commands device.new) }
{
    if !run.commands.has_command(name) {
        run.status = 127;
        return Ok(());
    }
    let reply = run.commands.call(run.alloc, fields, device);
    take_reply(reply, run)
}

fn take_reply<C: Commands>(reply: Reply, run: &mut ScriptRun<C>) -> Result<(), ScriptStop>
    ensures leads { (device : C.Device) → Leads C.call_gives (LeftBy result)
        (replied reply) (ending result) run.old run.new device device }
    ensures commands { run.new.commands ≡ run.old.commands }
    ensures done { OnOk result (is_done_reply reply ≡ true) }
{
    match reply {
        Reply::Done(ended, text) => {
            send(text.as_slice(), run)?;
            run.status = ended;
            Ok(())
        }
        Reply::Started(text) => {
            send(text.as_slice(), run)?;
            Err(ScriptStop::Started)
        }
        Reply::Fault => Err(ScriptStop::Fault),
        Reply::NoMemory => Err(ScriptStop::NoMemory),
    }
}
