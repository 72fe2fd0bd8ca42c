ghost use Rattle.std.specs.Prelude.{◌≡◌, IfOk, IfErr, OnOk, None, map};
ghost use Rattle.std.specs.Option.{option_map};
ghost use Rattle.bb_script.specs.Fields.{atom_marks, expansion_of};
ghost use Rattle.bb_script.specs.FieldsSoFar.{StopsLong, all_marks, closed_marks, fields_seen};
ghost use Rattle.bb_script.specs.FieldsSoFar.{fields_within, marks_taken, no_fields, part_marks};
ghost use Rattle.bb_script.specs.FieldsSoFar.{parts_marks};
ghost use Rattle.bb_script.specs.Words.{special_atom, word_atoms};

use crate::fields::{add_split_text, add_text, end_field, hold_field};
use crate::fields_so_far::{EXPANSION_LIMIT, ExpansionStop, FieldsSoFar, ScriptVariables};
use crate::{Special, Word, WordPart};
use bb_base::{Bytes, NoMemory};
use std::alloc::Global;

/// The fields of a command's words, or of the words of a `for`: none where they have more than
/// `EXPANSION_LIMIT` bytes in all.
pub fn expand_words<V: ScriptVariables>(
    alloc: Global,
    words: &[Word],
    variables: &V,
    status: u32,
) -> Result<Option<Vec<Bytes>>, NoMemory>
    ensures { IfOk result (λ fields. option_map (λ f. f.items) fields
        ≡ expansion_of (V.value_of variables.now) status (map word_atoms words.now)) }
{
    let mut fields = no_fields(alloc);
    match add_words(&mut fields, alloc, words, variables, status) {
        Ok(()) => Ok(fields_in_limit(fields)),
        Err(stop) => no_fields_after(stop),
    }
}

fn no_fields(alloc: Global) -> FieldsSoFar
    ensures { fields_seen result ≡ no_fields }
{
    FieldsSoFar {
        done: Vec::new(alloc),
        opened: None,
        size: 0,
    }
}

fn no_fields_after(stop: ExpansionStop) -> Result<Option<Vec<Bytes>>, NoMemory>
    ensures { IfOk result (λ fields. (stop ≡ ExpansionStop.TooLong) × (fields ≡ None)) }
{
    match stop {
        ExpansionStop::TooLong => Ok(None),
        ExpansionStop::NoMemory => Err(NoMemory),
    }
}

fn fields_in_limit(fields: FieldsSoFar) -> Option<Vec<Bytes>>
    ensures { option_map (λ f. f.items) result ≡ fields_within (fields_seen fields) }
{
    if fields.size > EXPANSION_LIMIT {
        return None;
    }
    Some(fields.done)
}

fn add_words<V: ScriptVariables>(
    fields: &mut FieldsSoFar,
    alloc: Global,
    words: &[Word],
    variables: &V,
    status: u32,
) -> Result<(), ExpansionStop>
    ensures ok { OnOk result (fields_seen fields.new ≡ marks_taken (fields_seen fields.old)
        (all_marks (V.value_of variables.now) status (map word_atoms words.now))) }
    ensures long { IfErr result (StopsLong (marks_taken (fields_seen fields.old)
        (all_marks (V.value_of variables.now) status (map word_atoms words.now)))) }
{
    for word in words {
        add_word(fields, alloc, word, variables, status)?;
    }
    Ok(())
}

fn add_word<V: ScriptVariables>(
    fields: &mut FieldsSoFar,
    alloc: Global,
    word: &Word,
    variables: &V,
    status: u32,
) -> Result<(), ExpansionStop>
    ensures ok { OnOk result (fields_seen fields.new ≡ marks_taken (fields_seen fields.old)
        (closed_marks (V.value_of variables.now) status (word_atoms word.now))) }
    ensures long { IfErr result (StopsLong (marks_taken (fields_seen fields.old)
        (closed_marks (V.value_of variables.now) status (word_atoms word.now)))) }
{
    add_parts(fields, alloc, word.parts.as_slice(), variables, status)?;
    add_text(fields, alloc, word.letters.as_slice())?;
    end_field(fields)
}

fn add_parts<V: ScriptVariables>(
    fields: &mut FieldsSoFar,
    alloc: Global,
    parts: &[WordPart],
    variables: &V,
    status: u32,
) -> Result<(), ExpansionStop>
    ensures ok { OnOk result (fields_seen fields.new ≡ marks_taken (fields_seen fields.old)
        (parts_marks (V.value_of variables.now) status parts.now)) }
    ensures long { IfErr result (StopsLong (marks_taken (fields_seen fields.old)
        (parts_marks (V.value_of variables.now) status parts.now))) }
{
    for part in parts {
        add_part(fields, alloc, part, variables, status)?;
    }
    Ok(())
}

fn add_part<V: ScriptVariables>(
    fields: &mut FieldsSoFar,
    alloc: Global,
    part: &WordPart,
    variables: &V,
    status: u32,
) -> Result<(), ExpansionStop>
    ensures ok { OnOk result (fields_seen fields.new ≡ marks_taken (fields_seen fields.old)
        (part_marks (V.value_of variables.now) status part.now)) }
    ensures long { IfErr result (StopsLong (marks_taken (fields_seen fields.old)
        (part_marks (V.value_of variables.now) status part.now))) }
{
    add_text(fields, alloc, part.letters.as_slice())?;
    add_special(fields, alloc, &part.special, variables, status)
}

fn add_special<V: ScriptVariables>(
    fields: &mut FieldsSoFar,
    alloc: Global,
    special: &Special,
    variables: &V,
    status: u32,
) -> Result<(), ExpansionStop>
    ensures ok { OnOk result (fields_seen fields.new ≡ marks_taken (fields_seen fields.old)
        (atom_marks (V.value_of variables.now) status (special_atom special.now))) }
    ensures long { IfErr result (StopsLong (marks_taken (fields_seen fields.old)
        (atom_marks (V.value_of variables.now) status (special_atom special.now)))) }
{
    match special {
        Special::Quote => {
            hold_field(fields, alloc);
            Ok(())
        }
        Special::Value(name) => {
            let value = variables.value(alloc, name.as_slice())?;
            add_split_text(fields, alloc, value.as_slice())
        }
        Special::QuotedValue(name) => {
            let value = variables.value(alloc, name.as_slice())?;
            add_text(fields, alloc, value.as_slice())
        }
        Special::Status => {
            let text = format!(in alloc; "{status}")?;
            add_text(fields, alloc, text.as_bytes())
        }
    }
}
