ghost use Rattle.std.specs.Prelude.{◌≡◌, ◌++◌, IfOk, IfErr, OnOk, None, Some, drop, length};
ghost use Rattle.std.specs.Prelude.{nat_lt, if◌then◌else◌};
ghost use Rattle.bb_interpreter.specs.Assigned.{StopsOver, assigned_name, assigned_rest};
ghost use Rattle.bb_interpreter.specs.Assigned.{assigned_value};
ghost use Rattle.bb_interpreter.specs.Assigned.{atom_text, uncut_text};
ghost use Rattle.bb_script.specs.Words.{part_atoms, plain_front, special_atom, word_atoms};

use bb_base::{Bytes, NoMemory};
use bb_script::{Assignment, EXPANSION_LIMIT, ScriptVariables, Special, Word, WordPart};
use std::alloc::{AllocError, Global};

/// Why the value of an assignment isn't made.
#[derive(Clone, Copy, Debug)]
pub(crate) enum ValueStop {
    TooLong,
    NoMemory,
}

impl From<NoMemory> for ValueStop {
    ghost use Rattle.std.specs.Prelude.{◌≡◌};
    ghost use Rattle.bb_interpreter.specs.declared.assigned.ValueStop.{ValueStop};
    ghost use Rattle.bb_interpreter.specs.declared.assigned.ValueStop.TheVariants.{NoMemory};

    ghost from_gives = { λ _ e. e ≡ NoMemory };

    fn from(_: NoMemory) -> Self {
        ValueStop::NoMemory
    }
}

impl From<AllocError> for ValueStop {
    ghost use Rattle.std.specs.Prelude.{◌≡◌};
    ghost use Rattle.bb_interpreter.specs.declared.assigned.ValueStop.{ValueStop};
    ghost use Rattle.bb_interpreter.specs.declared.assigned.ValueStop.TheVariants.{NoMemory};

    ghost from_gives = { λ _ e. e ≡ NoMemory };

    fn from(_: AllocError) -> Self {
        ValueStop::NoMemory
    }
}

/// The name that an assignment sets.
pub(crate) fn assigned_name(assignment: &Assignment) -> &[u8]
    ensures { result.now ≡ assigned_name assignment.now }
{
    let front = front_of(&assignment.word);
    &front[..assignment.name_len.min(front.len())]
}

// The letters before all else in a word.
#[tactic(auto, using(crate::proofs::AssignedLemmas::front_alone, crate::proofs::AssignedLemmas::front_of_part))]
fn front_of(word: &Word) -> &[u8]
    ensures { result.now ≡ plain_front (word_atoms word.now) }
{
    match word.parts.as_slice().split_first() {
        None => word.letters.as_slice(),
        Some((part, _)) => part.letters.as_slice(),
    }
}

/// What an assignment sets its name to, which isn't cut into fields: none where the name, the `=`
/// and the value have more than `EXPANSION_LIMIT` bytes.
pub(crate) fn expand_value<V: ScriptVariables>(
    alloc: Global,
    assignment: &Assignment,
    variables: &V,
    status: u32,
) -> Result<Option<Bytes>, NoMemory>
    ensures { IfOk result (λ value. value ≡ assigned_value (V.value_of variables.now) status
        (assigned_name assignment.now) (assigned_rest assignment.now)) }
{
    let name_len = assigned_name(assignment).len();
    if name_len >= EXPANSION_LIMIT {
        return Ok(None);
    }
    let limit = EXPANSION_LIMIT - 1 - name_len;
    let passed = assignment.name_len as u128 + 1;
    let mut value = Bytes::none(alloc);
    let word = &assignment.word;
    match add_word_after(&mut value, limit, alloc, word, passed, variables, status) {
        Ok(()) => Ok(value_within(value, limit)),
        Err(stop) => no_value_after(stop),
    }
}

fn value_within(value: Bytes, limit: usize) -> Option<Bytes>
    ensures { result ≡ (if nat_lt limit (length value) then None else Some value) }
{
    if value.as_slice().len() > limit {
        return None;
    }
    Some(value)
}

fn no_value_after(stop: ValueStop) -> Result<Option<Bytes>, NoMemory>
    ensures { IfOk result (λ value. (stop ≡ ValueStop.TooLong) × (value ≡ None)) }
{
    match stop {
        ValueStop::TooLong => Ok(None),
        ValueStop::NoMemory => Err(NoMemory),
    }
}

// Adds what a word expands to, of which so many atoms are passed over.
fn add_word_after<V: ScriptVariables>(
    text: &mut Bytes,
    limit: usize,
    alloc: Global,
    word: &Word,
    passed: u128,
    variables: &V,
    status: u32,
) -> Result<(), ValueStop>
    ensures ok { OnOk result (text.new ≡ text.old
        ++ uncut_text (V.value_of variables.now) status (drop passed (word_atoms word.now))) }
    ensures long { IfErr result (StopsOver limit (text.old
        ++ uncut_text (V.value_of variables.now) status (drop passed (word_atoms word.now)))) }
{
    let mut left = passed;
    for part in word.parts.as_slice() {
        add_part_after(text, limit, alloc, part, left, variables, status)?;
        left = left.saturating_sub(part.letters.len() as u128 + 1);
    }
    add_letters_after(text, limit, word.letters.as_slice(), left)
}

fn add_part_after<V: ScriptVariables>(
    text: &mut Bytes,
    limit: usize,
    alloc: Global,
    part: &WordPart,
    passed: u128,
    variables: &V,
    status: u32,
) -> Result<(), ValueStop>
    ensures ok { OnOk result (text.new ≡ text.old
        ++ uncut_text (V.value_of variables.now) status (drop passed (part_atoms part.now))) }
    ensures long { IfErr result (StopsOver limit (text.old
        ++ uncut_text (V.value_of variables.now) status (drop passed (part_atoms part.now)))) }
{
    let letters = part.letters.as_slice();
    if passed > letters.len() as u128 {
        return Ok(());
    }
    add_letters_after(text, limit, letters, passed)?;
    add_special_text(text, limit, alloc, &part.special, variables, status)
}

fn add_special_text<V: ScriptVariables>(
    text: &mut Bytes,
    limit: usize,
    alloc: Global,
    special: &Special,
    variables: &V,
    status: u32,
) -> Result<(), ValueStop>
    ensures ok { OnOk result (text.new ≡ text.old
        ++ atom_text (V.value_of variables.now) status (special_atom special.now)) }
    ensures long { IfErr result (StopsOver limit (text.old
        ++ atom_text (V.value_of variables.now) status (special_atom special.now))) }
{
    match special {
        Special::Quote => Ok(()),
        Special::Value(name) => {
            let value = variables.value(alloc, name.as_slice())?;
            add_within(text, limit, value.as_slice())
        }
        Special::QuotedValue(name) => {
            let value = variables.value(alloc, name.as_slice())?;
            add_within(text, limit, value.as_slice())
        }
        Special::Status => {
            let last = format!(in alloc; "{status}")?;
            add_within(text, limit, last.as_bytes())
        }
    }
}

fn add_letters_after(
    text: &mut Bytes,
    limit: usize,
    letters: &[u8],
    passed: u128,
) -> Result<(), ValueStop>
    ensures ok { OnOk result (text.new ≡ text.old ++ drop passed letters.now) }
    ensures long { IfErr result (StopsOver limit (text.old ++ drop passed letters.now)) }
{
    let passed = passed.min(letters.len() as u128) as usize;
    add_within(text, limit, &letters[passed..])
}

fn add_within(text: &mut Bytes, limit: usize, more: &[u8]) -> Result<(), ValueStop>
    ensures ok { OnOk result (text.new ≡ text.old ++ more.now) }
    ensures long { IfErr result (StopsOver limit (text.old ++ more.now)) }
{
    if more.len() > limit.saturating_sub(text.as_slice().len()) {
        return Err(ValueStop::TooLong);
    }
    text.add(more)?;
    Ok(())
}
