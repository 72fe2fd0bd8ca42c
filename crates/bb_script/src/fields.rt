ghost use Rattle.std.specs.Prelude.{◌≡◌, ◌<◌, ◌≤◌, IfErr, OnOk, map};
ghost use Rattle.bb_script.specs.Fields.{Char, Gap, Held, separates_fields, split_mark};
ghost use Rattle.bb_script.specs.FieldsSoFar.{StopsLong, fields_seen, mark_taken, marks_taken};

use crate::fields_so_far::{EXPANSION_LIMIT, ExpansionStop, FieldsSoFar};
use bb_base::Bytes;
use std::alloc::Global;

/// Adds characters to the open field.
pub(crate) fn add_text(
    fields: &mut FieldsSoFar,
    alloc: Global,
    text: &[u8],
) -> Result<(), ExpansionStop>
    ensures ok { OnOk result
        (fields_seen fields.new ≡ marks_taken (fields_seen fields.old) (map Char text.now)) }
    ensures long { IfErr result
        (StopsLong (marks_taken (fields_seen fields.old) (map Char text.now))) }
{
    for byte in text {
        add_byte(fields, alloc, *byte)?;
    }
    Ok(())
}

/// Adds characters, and ends a field at each blank.
pub(crate) fn add_split_text(
    fields: &mut FieldsSoFar,
    alloc: Global,
    text: &[u8],
) -> Result<(), ExpansionStop>
    ensures ok { OnOk result
        (fields_seen fields.new ≡ marks_taken (fields_seen fields.old) (map split_mark text.now)) }
    ensures long { IfErr result
        (StopsLong (marks_taken (fields_seen fields.old) (map split_mark text.now))) }
{
    for byte in text {
        add_split_byte(fields, alloc, *byte)?;
    }
    Ok(())
}

fn add_split_byte(fields: &mut FieldsSoFar, alloc: Global, byte: u8) -> Result<(), ExpansionStop>
    ensures ok { OnOk result
        (fields_seen fields.new ≡ mark_taken (fields_seen fields.old) (split_mark byte)) }
    ensures long { IfErr result
        (StopsLong (mark_taken (fields_seen fields.old) (split_mark byte))) }
{
    if separates_fields(byte) {
        end_field(fields)
    } else {
        add_byte(fields, alloc, byte)
    }
}

fn separates_fields(byte: u8) -> bool
    ensures { result ≡ separates_fields byte }
{
    byte == b' ' || byte == b'\t' || byte == b'\n'
}

fn add_byte(fields: &mut FieldsSoFar, alloc: Global, byte: u8) -> Result<(), ExpansionStop>
    ensures ok { OnOk result
        (fields_seen fields.new ≡ mark_taken (fields_seen fields.old) (Char byte)) }
    ensures long { IfErr result (StopsLong (mark_taken (fields_seen fields.old) (Char byte))) }
{
    if fields.size >= EXPANSION_LIMIT {
        return Err(ExpansionStop::TooLong);
    }
    let mut opened = fields.opened.take().unwrap_or(Bytes::none(alloc));
    opened.add(&[byte])?;
    fields.opened = Some(opened);
    fields.size += 1;
    Ok(())
}

/// A quoted part begins, so the field counts even without a character.
pub(crate) fn hold_field(fields: &mut FieldsSoFar, alloc: Global)
    ensures { fields_seen fields.new ≡ mark_taken (fields_seen fields.old) Held }
{
    if fields.opened.is_none() {
        fields.opened = Some(Bytes::none(alloc));
    }
}

/// Ends the open field, where there is one.
pub(crate) fn end_field(fields: &mut FieldsSoFar) -> Result<(), ExpansionStop>
    ensures ok { OnOk result
        (fields_seen fields.new ≡ mark_taken (fields_seen fields.old) Gap) }
    ensures memory { IfErr result (λ e. e ≡ ExpansionStop.NoMemory) }
{
    if let Some(opened) = fields.opened.take() {
        fields.done.push(opened)?;
    }
    Ok(())
}
