ghost use Rattle.std.specs.Prelude.{◌≡◌, Ok, IfOk, IfErr};
ghost use Rattle.std.specs.Option.{option_map};
ghost use Rattle.bb_chooser.specs.Faults.{RefusesLine};
ghost use Rattle.bb_chooser.specs.Lines as spec;
ghost use Rattle.bb_chooser.specs.References.{text_pair};

use crate::fault::Fault;
use crate::setting::{Setting, read_setting};
use crate::value::without_quotes;
use std::alloc::Global;
use std::str;

/// What a line sets. A line of blanks, and a comment, set nothing.
pub(crate) fn read_line(alloc: Global, line: &[u8]) -> Result<Option<Setting>, Fault>
    ensures ok { IfOk result (λ setting. spec.setting_in_line line.now ≡ Ok setting) }
    ensures refused { IfErr result (RefusesLine (spec.setting_in_line line.now)) }
{
    let Ok(text) = str::from_utf8(line) else {
        return Err(Fault::BadLine);
    };
    if sets_nothing(line) {
        return Ok(None);
    }
    Ok(Some(assignment(alloc, text)?))
}

fn sets_nothing(line: &[u8]) -> bool
    ensures { result ≡ spec.sets_nothing line.now }
{
    match line.iter().find(|c| !is_blank(**c)) {
        Some(first) => *first == b'#',
        None => true,
    }
}

fn is_blank(c: u8) -> bool
    ensures { result ≡ spec.is_blank c }
{
    c == b' ' || c == b'\t'
}

// `global.bootchooser.KEY=VALUE`
fn assignment(alloc: Global, text: &str) -> Result<Setting, Fault>
    ensures ok { IfOk result (λ setting. spec.assignment_of text.now ≡ Ok setting) }
    ensures refused { IfErr result (RefusesLine (spec.assignment_of text.now)) }
{
    let Some(rest) = text.strip_prefix("global.bootchooser.") else {
        return Err(Fault::BadLine);
    };
    pair_setting(alloc, rest)
}

// `KEY=VALUE`
fn pair_setting(alloc: Global, text: &str) -> Result<Setting, Fault>
    ensures ok { IfOk result (λ setting. spec.pair_setting_of text.now ≡ Ok setting) }
    ensures refused { IfErr result (RefusesLine (spec.pair_setting_of text.now)) }
{
    let Some((key, value)) = key_and_value(text) else {
        return Err(Fault::BadLine);
    };
    read_setting(alloc, key, without_quotes(value))
}

fn key_and_value(text: &str) -> Option<(&str, &str)>
    ensures { option_map text_pair result ≡ spec.sides_at 61 text.now }
{
    let (key, value) = text.split_once('=')?;
    Some((key, value))
}
