ghost use Rattle.std.specs.Prelude.{◌≡◌, ◌≤◌, ◌<◌, ◌^◌, ◌++◌, ◌∷◌, [], Ok, IfOk, IfErr, OnOk};
ghost use Rattle.std.specs.Prelude.{length};
ghost use Rattle.std.specs.Str.{IsAscii};
ghost use Rattle.bb_dts.specs.Places.{Value, Cells, Bytes, After};
ghost use Rattle.bb_dts.specs.Strings.{quoted_bytes};
ghost use Rattle.bb_dts.specs.Walk.{number_below, byte_value, property_of_name, with_reference};
ghost use Rattle.bb_dts.specs.Walk.{with_joined_bytes};
ghost use Rattle.bb_dts.specs.Descent.{value_walk_from, walk_after_value, walk_after_prop};
ghost use Rattle.bb_dts.specs.Descent.{RefusesResult, RefusesValue};

use crate::DtsError;
use crate::input::Input;
use crate::next_token::next_token;
use crate::number::{NumberFault, read_number};
use crate::property::Property;
use crate::string::{read_byte, unescape};
use crate::token_kind::{Mode, TokenKind};
use crate::word::word_text;
use bb_base::NoMemory;
use bb_tree::{DraftProp, Part, PartList};
use std::alloc::Global;

/// A property without a value. Its name must be ASCII.
pub(crate) fn empty_prop(alloc: Global, name: &[u8]) -> Result<DraftProp, NoMemory>
    requires { IsAscii name.now }
    ensures name { IfOk result (λ prop. prop.name ≡ name.now) }
    ensures parts { IfOk result (λ prop. prop.parts ≡ []) }
{
    let name = word_text(alloc, name)?;
    let parts = PartList::none(alloc);
    Ok(DraftProp { name, parts })
}

/// Reads a property, after its `=`, with its `;`. Its name must be ASCII.
#[tactic(auto, using(crate::proofs::WalkLemmas::walk_after_value_is))]
pub(crate) fn read_property<'a>(
    input: Input,
    name: &[u8],
    text: &'a [u8],
) -> Result<(DraftProp, &'a [u8]), DtsError>
    requires within { length text.now ≤ input.total }
    requires plain { IsAscii name.now }
    ensures name { IfOk result (λ r. r.0.name ≡ name.now) }
    ensures ok { IfOk result (λ r.
        value_walk_from input.total Value (property_of_name name.now) text.now
        ≡ walk_after_prop input.total r.0.name r.0.parts r.1.now) }
    ensures refused { IfErr result
        (RefusesValue (value_walk_from input.total Value (property_of_name name.now) text.now)) }
    ensures shorter { IfOk result (λ r. length r.1.now < length text.now) }
{
    let mut property = Property::of_name(input.alloc, word_text(input.alloc, name)?);
    let rest = read_value(input, &mut property, text)?;
    Ok((property.finish()?, rest))
}

// Reads a property's value, after the `=`, with the `;`.
#[tactic(auto, using(crate::proofs::WalkLemmas::value_walk_from_after))]
fn read_value<'a>(
    input: Input,
    property: &mut Property,
    text: &'a [u8],
) -> Result<&'a [u8], DtsError>
    requires { length text.now ≤ input.total }
    ensures name { OnOk result (property.new.name ≡ property.old.name) }
    ensures ok { IfOk result (λ rest. value_walk_from input.total Value property.old text.now
        ≡ walk_after_value input.total property.new rest.now) }
    ensures refused { IfErr result
        (RefusesValue (value_walk_from input.total Value property.old text.now)) }
    ensures shorter { IfOk result (λ rest. length rest.now < length text.now) }
{
    let mut rest = read_part(input, property, text)?;
    loop {
        let token = next_token(Mode::Values, input.total, rest)?;
        match token.kind {
            TokenKind::Comma => rest = read_part(input, property, token.rest)?,
            TokenKind::Semicolon => return Ok(token.rest),
            _ => return Err(DtsError::Unexpected(token.at)),
        }
    }
}

// Reads a string, the cells between `< >`, the bytes between `[ ]` or a reference.
#[tactic(auto, using(crate::proofs::WalkLemmas::value_walk_from_value))]
fn read_part<'a>(
    input: Input,
    property: &mut Property,
    text: &'a [u8],
) -> Result<&'a [u8], DtsError>
    requires { length text.now ≤ input.total }
    ensures name { OnOk result (property.new.name ≡ property.old.name) }
    ensures ok { IfOk result (λ rest. value_walk_from input.total Value property.old text.now
        ≡ value_walk_from input.total After property.new rest.now) }
    ensures refused { IfErr result
        (RefusesValue (value_walk_from input.total Value property.old text.now)) }
    ensures shorter { IfOk result (λ rest. length rest.now < length text.now) }
{
    let token = next_token(Mode::Values, input.total, text)?;
    match token.kind {
        TokenKind::Quoted => {
            add_string(property, token.word)?;
            Ok(token.rest)
        }
        TokenKind::Reference => {
            let label = word_text(input.alloc, token.word)?;
            refer(
                input,
                property,
                Part::Path {
                    label,
                    at: token.at,
                },
                token.at,
            )?;
            Ok(token.rest)
        }
        TokenKind::Less => read_cells(input, property, token.rest),
        TokenKind::OpenBracket => read_bytes(input, property, token.rest),
        _ => Err(DtsError::Unexpected(token.at)),
    }
}

fn add_string(property: &mut Property, word: &[u8]) -> Result<(), NoMemory>
    ensures { OnOk result
        (property.new ≡ with_joined_bytes property.old (quoted_bytes 0 word.now ++ 0 ∷ [])) }
{
    unescape(&mut property.bytes, word)?;
    property.add(&[0])
}

fn refer(input: Input, property: &mut Property, reference: Part, at: usize) -> Result<(), DtsError>
    ensures ok { OnOk result (with_reference property.old reference at ≡ Ok property.new) }
    ensures name { OnOk result (property.new.name ≡ property.old.name) }
    ensures refused { IfErr result (RefusesResult (with_reference property.old reference at)) }
{
    if property.is_phandle() {
        return Err(DtsError::Unexpected(at));
    }
    property.refer(input.alloc, reference)?;
    Ok(())
}

// Reads the cells after a `<`, with the `>`.
#[tactic(auto, using(crate::proofs::WalkLemmas::value_walk_from_cells))]
fn read_cells<'a>(
    input: Input,
    property: &mut Property,
    text: &'a [u8],
) -> Result<&'a [u8], DtsError>
    requires { length text.now ≤ input.total }
    ensures name { OnOk result (property.new.name ≡ property.old.name) }
    ensures ok { IfOk result (λ rest. value_walk_from input.total Cells property.old text.now
        ≡ value_walk_from input.total After property.new rest.now) }
    ensures refused { IfErr result
        (RefusesValue (value_walk_from input.total Cells property.old text.now)) }
    ensures shorter { IfOk result (λ rest. length rest.now < length text.now) }
{
    let mut rest = text;
    loop {
        let token = next_token(Mode::Numbers, input.total, rest)?;
        match token.kind {
            TokenKind::Greater => return Ok(token.rest),
            TokenKind::Number => property.add(&cell(token.word, token.at)?.to_be_bytes())?,
            TokenKind::Reference => {
                let label = word_text(input.alloc, token.word)?;
                refer(
                    input,
                    property,
                    Part::Cell {
                        label,
                        at: token.at,
                    },
                    token.at,
                )?;
            }
            _ => return Err(DtsError::Unexpected(token.at)),
        }
        rest = token.rest;
    }
}

fn cell(word: &[u8], at: usize) -> Result<u32, DtsError>
    ensures { result ≡ number_below (2 ^ 32) word.now at }
{
    match read_number(word) {
        Ok(n) => u32::try_from(n).map_err(|_| DtsError::NumberTooLarge(at)),
        Err(NumberFault::Malformed) => Err(DtsError::BadToken(at)),
        Err(NumberFault::TooLarge) => Err(DtsError::NumberTooLarge(at)),
    }
}

// Reads the bytes after a `[`, with the `]`.
#[tactic(auto, using(crate::proofs::WalkLemmas::value_walk_from_bytes))]
fn read_bytes<'a>(
    input: Input,
    property: &mut Property,
    text: &'a [u8],
) -> Result<&'a [u8], DtsError>
    requires { length text.now ≤ input.total }
    ensures name { OnOk result (property.new.name ≡ property.old.name) }
    ensures ok { IfOk result (λ rest. value_walk_from input.total Bytes property.old text.now
        ≡ value_walk_from input.total After property.new rest.now) }
    ensures refused { IfErr result
        (RefusesValue (value_walk_from input.total Bytes property.old text.now)) }
    ensures shorter { IfOk result (λ rest. length rest.now < length text.now) }
{
    let mut rest = text;
    loop {
        let token = next_token(Mode::Pairs, input.total, rest)?;
        match token.kind {
            TokenKind::CloseBracket => return Ok(token.rest),
            TokenKind::Byte => property.add(&[byte(token.word, token.at)?])?,
            _ => return Err(DtsError::Unexpected(token.at)),
        }
        rest = token.rest;
    }
}

fn byte(word: &[u8], at: usize) -> Result<u8, DtsError>
    ensures { result ≡ byte_value word.now at }
{
    read_byte(16, word).ok_or(DtsError::BadToken(at))
}
