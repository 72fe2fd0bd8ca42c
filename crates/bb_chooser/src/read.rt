ghost use Rattle.std.specs.Prelude.{◌≡◌, ◌==◌, ◌<◌, IfOk, IfErr, OnOk, length};
ghost use Rattle.std.specs.List.{slice_split};
ghost use Rattle.std.specs.Str.Lines.{strip_carriage_return};
ghost use Rattle.bb_chooser.specs.GivenSoFar.{given_in};
ghost use Rattle.bb_chooser.specs.Reading.{IsGivenBy, TakesSetting, line_in, settings_in_parts};
ghost use Rattle.bb_chooser.specs.Refusals.{Refuses};
ghost use Rattle.bb_chooser.specs.References.{texts_of};
ghost use Rattle.bb_chooser.specs.Settings.{setting_at};

use crate::SettingsError;
use crate::given::GivenSoFar;
use crate::line::read_line;
use bb_base::NoMemory;
use std::alloc::Global;

/// What stands between line feeds.
pub(crate) fn parts(alloc: Global, text: &[u8]) -> Result<Vec<&[u8]>, NoMemory>
    ensures { IfOk result (λ parts. texts_of parts.items ≡ slice_split (λ c. c == 10) text.now) }
{
    let parts = text.split(|c| *c == b'\n').collect(alloc)?;
    Ok(parts)
}

/// What the lines set, of which these are the parts between line feeds.
pub(crate) fn read_parts(alloc: Global, parts: &[&[u8]]) -> Result<GivenSoFar, SettingsError>
    ensures ok { IfOk result (λ given.
        IsGivenBy (given_in given) (settings_in_parts 1 (texts_of parts.now))) }
    ensures refused { IfErr result (Refuses (settings_in_parts 1 (texts_of parts.now))) }
{
    let mut given = GivenSoFar::none(alloc);
    for i in 0..parts.len() {
        take_line(alloc, line_at(parts, i), i + 1, &mut given)?;
    }
    Ok(given)
}

// A part is a line, and loses the CR at its end where a line feed comes after it.
fn line_at<'a>(parts: &[&'a [u8]], i: usize) -> &'a [u8]
    requires { i < length parts.now }
    ensures { result.now ≡ line_in (texts_of parts.now) i }
{
    let part = parts[i];
    if i + 1 < parts.len() {
        return without_return(part);
    }
    part
}

fn without_return(part: &[u8]) -> &[u8]
    ensures { result.now ≡ strip_carriage_return part.now }
{
    match part {
        [front @ .., b'\r'] => front,
        _ => part,
    }
}

fn take_line(
    alloc: Global,
    line: &[u8],
    number: usize,
    given: &mut GivenSoFar,
) -> Result<(), SettingsError>
    ensures ok { OnOk result
        (TakesSetting (setting_at number line.now) (given_in given.old) (given_in given.new)) }
    ensures refused { IfErr result (Refuses (setting_at number line.now)) }
{
    let setting = read_line(alloc, line).map_err(|fault| fault.at(number))?;
    if let Some(setting) = setting {
        given.take(alloc, setting)?;
    }
    Ok(())
}
