ghost use Rattle.std.specs.Prelude.{◌≡◌};
ghost use Rattle.bb_script_commands.specs.OutsideWords.{is_outside_name, is_pair};
ghost use Rattle.bb_script_commands.specs.OutsideWords.{outside_command, pair_command};

use bb_base::Bytes;

/// What the words of a command from outside say.
#[derive(Clone, Copy, Debug, PartialEq, Eq)]
pub(crate) enum OutsideCommand {
    /// `state -s`
    Save,
    /// `bootchooser -s`
    MarkGood,
    /// `bootchooser -i`
    Show,
    /// `boot bootchooser`
    Boot,
    /// Anything else.
    Misused,
}

/// Whether a command has this name.
pub(crate) fn is_outside_name(name: &[u8]) -> bool
    ensures { result ≡ is_outside_name name.now }
{
    name == b"state".as_slice() || name == b"bootchooser".as_slice() || name == b"boot".as_slice()
}

/// What these words, of which the first is the name, say.
pub(crate) fn outside_command(words: &[Bytes]) -> OutsideCommand
    ensures { result ≡ outside_command words.now }
{
    match words {
        [name, word] => pair_command(name.as_slice(), word.as_slice()),
        _ => OutsideCommand::Misused,
    }
}

fn pair_command(name: &[u8], word: &[u8]) -> OutsideCommand
    ensures { result ≡ pair_command name.now word.now }
{
    if is_pair(name, word, b"state", b"-s") {
        return OutsideCommand::Save;
    }
    if is_pair(name, word, b"bootchooser", b"-s") {
        return OutsideCommand::MarkGood;
    }
    if is_pair(name, word, b"bootchooser", b"-i") {
        return OutsideCommand::Show;
    }
    if is_pair(name, word, b"boot", b"bootchooser") {
        return OutsideCommand::Boot;
    }
    OutsideCommand::Misused
}

fn is_pair(name: &[u8], word: &[u8], first: &[u8], second: &[u8]) -> bool
    ensures { result ≡ is_pair name.now word.now first.now second.now }
{
    name == first && word == second
}
