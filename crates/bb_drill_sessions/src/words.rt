ghost use Rattle.std.specs.Prelude.{◌≡◌, [], IfOk};
ghost use Rattle.bb_drill_sessions.specs.Commands.{drill_words, on_board, on_settings};
ghost use Rattle.bb_drill_sessions.specs.Commands.{priority_word};

use bb_base::{NoMemory, Text, TextList};
use bb_drill::DrillCommand;
use std::alloc::Global;

/// The words of a session, after the device and its geometry.
pub(crate) fn drill_words(alloc: Global, command: DrillCommand) -> Result<TextList, NoMemory>
    ensures { IfOk result (λ words. words ≡ drill_words command) }
{
    match command {
        DrillCommand::Priority(value) => {
            let set = priority_word(alloc, value)?;
            let mut words = on_board(alloc, "state")?;
            words.push(Text::of(alloc, "-s")?)?;
            words.push(set)?;
            Ok(words)
        }
        DrillCommand::Boot => on_settings(alloc, "boot"),
        DrillCommand::MarkGood => on_settings(alloc, "mark-good"),
        DrillCommand::Show => on_board(alloc, "state"),
    }
}

fn on_board(alloc: Global, command: &str) -> Result<TextList, NoMemory>
    ensures { IfOk result (λ words. words ≡ on_board command.now []) }
{
    let mut words = TextList::none(alloc);
    words.push(Text::of(alloc, command)?)?;
    words.push(Text::of(alloc, "-i")?)?;
    words.push(Text::of(alloc, "board.dts")?)?;
    Ok(words)
}

fn on_settings(alloc: Global, command: &str) -> Result<TextList, NoMemory>
    ensures { IfOk result (λ words. words ≡ on_settings command.now) }
{
    let mut words = on_board(alloc, command)?;
    words.push(Text::of(alloc, "-c")?)?;
    words.push(Text::of(alloc, "set.txt")?)?;
    Ok(words)
}

fn priority_word(alloc: Global, value: u32) -> Result<Text, NoMemory>
    ensures { IfOk result (λ word. word ≡ priority_word value) }
{
    let word = format!(in alloc; "bootstate.system1.priority={value}")?;
    Text::of(alloc, word.as_str())
}
