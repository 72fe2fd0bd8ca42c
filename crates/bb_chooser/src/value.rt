ghost use Rattle.std.specs.Prelude.{◌≡◌, Ok, IfOk, IfErr};
ghost use Rattle.std.specs.List.{list_all, list_any};
ghost use Rattle.std.specs.Str.{bytes_eq};
ghost use Rattle.bb_chooser.specs.Faults.{RefusesLine};
ghost use Rattle.bb_chooser.specs.Keys.{is_target_name};
ghost use Rattle.bb_chooser.specs.References.{texts_of};
ghost use Rattle.bb_chooser.specs.Values as value_spec;

use crate::events::Events;
use crate::fault::Fault;
use crate::key::is_target_name;
use crate::names::Names;
use bb_base::{NoMemory, Text, read_number};
use std::alloc::Global;

/// A value without the two `"` around it, if it has them.
pub(crate) fn without_quotes(value: &str) -> &str
    ensures { result.now ≡ value_spec.without_quotes value.now }
{
    let Some(rest) = value.strip_prefix('"') else {
        return value;
    };
    let Some(inner) = rest.strip_suffix('"') else {
        return value;
    };
    inner
}

pub(crate) fn number(value: &str) -> Result<u32, Fault>
    ensures { result ≡ value_spec.number_in value.now }
{
    read_number(value.as_bytes()).map_err(|_| Fault::BadNumber)
}

/// 0 or 1, in each spelling of a number.
pub(crate) fn flag(value: &str) -> Result<bool, Fault>
    ensures { result ≡ value_spec.flag_in value.now }
{
    match number(value)? {
        0 => Ok(false),
        1 => Ok(true),
        _ => Err(Fault::BadNumber),
    }
}

/// Names of targets with one or more spaces between.
pub(crate) fn names(alloc: Global, value: &str) -> Result<Names, Fault>
    ensures ok { IfOk result (λ names. value_spec.names_value value.now ≡ Ok names) }
    ensures refused { IfErr result (RefusesLine (value_spec.names_value value.now)) }
{
    let words = words(alloc, value)?;
    let words = words.as_slice();
    if !are_target_names(words) {
        return Err(Fault::BadLine);
    }
    differing_names(alloc, words)
}

// The words, each of which stands there once.
fn differing_names(alloc: Global, words: &[&str]) -> Result<Names, Fault>
    ensures ok { IfOk result (λ names. value_spec.differing_names (texts_of words.now) ≡ Ok names) }
    ensures refused { IfErr result (RefusesLine (value_spec.differing_names (texts_of words.now))) }
{
    let mut names = Names::none(alloc);
    for word in words {
        if !names.add(word)? {
            return Err(Fault::TargetTwice);
        }
    }
    Ok(names)
}

fn are_target_names(words: &[&str]) -> bool
    ensures { result ≡ list_all (λ w. is_target_name w.now) words.now }
{
    words.iter().all(|word| is_target_name(word))
}

/// Events that reset attempts, with one or more spaces between.
pub(crate) fn events(alloc: Global, value: &str) -> Result<Events, Fault>
    ensures ok { IfOk result (λ events. value_spec.events_in value.now ≡ Ok events) }
    ensures refused { IfErr result (RefusesLine (value_spec.events_in value.now)) }
{
    let words = words(alloc, value)?;
    let words = words.as_slice();
    if !are_events(words) {
        return Err(Fault::BadEvent);
    }
    Ok(Events {
        power_on: has_word(words, "power-on"),
        reset: has_word(words, "reset"),
        all_zero: has_word(words, "all-zero"),
    })
}

fn are_events(words: &[&str]) -> bool
    ensures { result ≡ list_all (λ w. value_spec.is_event w.now) words.now }
{
    words.iter().all(|word| is_event(word))
}

fn is_event(word: &str) -> bool
    ensures { result ≡ value_spec.is_event word.now }
{
    word == "power-on" || word == "reset" || word == "all-zero"
}

fn has_word(words: &[&str], name: &str) -> bool
    ensures { result ≡ list_any (λ w. bytes_eq w.now name.now) words.now }
{
    words.iter().any(|word| *word == name)
}

/// `all-zero`, or nothing.
pub(crate) fn all_zero(value: &str) -> Result<bool, Fault>
    ensures { result ≡ value_spec.all_zero_in value.now }
{
    match value {
        "" => Ok(false),
        "all-zero" => Ok(true),
        _ => Err(Fault::BadEvent),
    }
}

/// Names joined by `.`, none of which is empty.
pub(crate) fn prefix(alloc: Global, value: &str) -> Result<Text, Fault>
    ensures ok { IfOk result (λ prefix. value_spec.prefix_value value.now ≡ Ok prefix) }
    ensures refused { IfErr result (RefusesLine (value_spec.prefix_value value.now)) }
{
    if !has_parts(value) {
        return Err(Fault::BadLine);
    }
    Ok(Text::of(alloc, value)?)
}

fn has_parts(value: &str) -> bool
    ensures { result ≡ value_spec.has_parts value.now }
{
    value.split('.').all(|part| !part.is_empty())
}

/// The name of a file.
pub(crate) fn file(alloc: Global, value: &str) -> Result<Text, Fault>
    ensures ok { IfOk result (λ file. value_spec.file_value value.now ≡ Ok file) }
    ensures refused { IfErr result (RefusesLine (value_spec.file_value value.now)) }
{
    if value.is_empty() {
        return Err(Fault::BadLine);
    }
    Ok(Text::of(alloc, value)?)
}

// What stands between spaces.
fn words(alloc: Global, value: &str) -> Result<Vec<&str>, NoMemory>
    ensures { IfOk result (λ words. texts_of words.items ≡ value_spec.split_at_spaces value.now) }
{
    let words = value
        .split(' ')
        .filter(|word| !word.is_empty())
        .collect(alloc)?;
    Ok(words)
}
