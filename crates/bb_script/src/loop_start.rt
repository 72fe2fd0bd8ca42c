ghost use Rattle.std.specs.Prelude.{◌≡◌, ◌≤◌, ◌<◌, IfOk, IfErr, IfSome, IfNone, OnOk};
ghost use Rattle.std.specs.Prelude.{Some, None};
ghost use Rattle.bb_script.specs.Descent.{RefusesWalk, head_seen, loop_body_walk, text_walk};
ghost use Rattle.bb_script.specs.Descent.{tokens_left};
ghost use Rattle.bb_script.specs.Places.{LoopDo, LoopIn, LoopName, LoopWords, is_variable_name};
ghost use Rattle.bb_script.specs.Places.{loop_name, with_loop_word};
ghost use Rattle.bb_script.specs.Words.{word_atoms};

use crate::keyword::{is_do, is_in, is_line};
use crate::misplaced::{misplaced, refused_at};
use crate::next_token::next_token;
use crate::piece::variable_len;
use crate::token::{LoopStart, Nesting, ScriptInput};
use crate::token_kind::ScriptTokenKind;
use crate::{ScriptError, Word};

/// After a `for` that stands so deep, to its body.
pub(crate) fn read_loop_start<'a>(
    input: ScriptInput,
    outside: Nesting,
    inner: Nesting,
    text: &'a [u8],
) -> Result<(LoopStart, &'a [u8]), ScriptError>
    ensures ok { IfOk result (λ r. text_walk input inner (LoopName outside) text.now
        ≡ loop_body_walk input inner r.0 r.1.now) }
    ensures outside { IfOk result (λ r. r.0.outside ≡ outside) }
    ensures refused { IfErr result
        (RefusesWalk (text_walk input inner (LoopName outside) text.now)) }
    ensures within { IfOk result (λ r. tokens_left input r.1.now ≤ tokens_left input text.now) }
{
    let (mut start, rest) = read_name(input, outside, inner, text)?;
    let rest = read_in(input, inner, &start, rest)?;
    let rest = read_loop_words(input, inner, &mut start, rest)?;
    let rest = read_do(input, inner, &start, rest)?;
    Ok((start, rest))
}

#[tactic(auto, using(crate::proofs::WalkLemmas::name_next))]
fn read_name<'a>(
    input: ScriptInput,
    outside: Nesting,
    inner: Nesting,
    text: &'a [u8],
) -> Result<(LoopStart, &'a [u8]), ScriptError>
    ensures ok { IfOk result (λ r. text_walk input inner (LoopName outside) text.now
        ≡ text_walk input inner (LoopIn (head_seen r.0)) r.1.now) }
    ensures outside { IfOk result (λ r. r.0.outside ≡ outside) }
    ensures refused { IfErr result
        (RefusesWalk (text_walk input inner (LoopName outside) text.now)) }
    ensures within { IfOk result (λ r. tokens_left input r.1.now ≤ tokens_left input text.now) }
{
    let (token, word) = next_token(input, text)?;
    let Some(name) = loop_name(token.kind, &word) else {
        return Err(misplaced(inner, &token));
    };
    let start = LoopStart {
        outside,
        name: name.to_vec(input.alloc)?,
        words: Vec::new(input.alloc),
    };
    Ok((start, token.rest))
}

fn loop_name(kind: ScriptTokenKind, word: &Word) -> Option<&[u8]>
    ensures some { IfSome result (λ name. loop_name (word_atoms word.now) kind ≡ Some name.now) }
    ensures none { IfNone result (loop_name (word_atoms word.now) kind ≡ None) }
{
    match kind {
        ScriptTokenKind::Word(_) => match word.plain() {
            Some(text) => {
                if is_variable_name(text) {
                    return Some(text);
                }
                None
            }
            None => None,
        },
        _ => None,
    }
}

fn is_variable_name(text: &[u8]) -> bool
    ensures { result ≡ is_variable_name text.now }
{
    let n = variable_len(text);
    n > 0 && n == text.len()
}

#[tactic(auto, using(crate::proofs::WalkLemmas::in_next))]
fn read_in<'a>(
    input: ScriptInput,
    inner: Nesting,
    start: &LoopStart,
    text: &'a [u8],
) -> Result<&'a [u8], ScriptError>
    ensures ok { IfOk result (λ rest. text_walk input inner (LoopIn (head_seen start.now)) text.now
        ≡ text_walk input inner (LoopWords (head_seen start.now)) rest.now) }
    ensures refused { IfErr result
        (RefusesWalk (text_walk input inner (LoopIn (head_seen start.now)) text.now)) }
    ensures within { IfOk result (λ rest.
        tokens_left input rest.now ≤ tokens_left input text.now) }
{
    let (token, _) = next_token(input, text)?;
    if !is_in(token.kind) {
        return Err(misplaced(inner, &token));
    }
    Ok(token.rest)
}

fn add_loop_word(start: &mut LoopStart, word: Word) -> Result<(), ScriptError>
    ensures ok { OnOk result
        (head_seen start.new ≡ with_loop_word (head_seen start.old) (word_atoms word)) }
    ensures outside { start.new.outside ≡ start.old.outside }
    ensures memory { IfErr result (λ e. e ≡ ScriptError.NoMemory) }
{
    start.words.push(word)?;
    Ok(())
}

// The words of a `for`, and what ends them.
#[tactic(auto, using(crate::proofs::WalkLemmas::loop_words_next))]
fn read_loop_words<'a>(
    input: ScriptInput,
    inner: Nesting,
    start: &mut LoopStart,
    text: &'a [u8],
) -> Result<&'a [u8], ScriptError>
    ensures ok { IfOk result (λ rest.
        text_walk input inner (LoopWords (head_seen start.old)) text.now
        ≡ text_walk input inner (LoopDo (head_seen start.new)) rest.now) }
    ensures outside { IfOk result (λ rest. start.new.outside ≡ start.old.outside) }
    ensures refused { IfErr result
        (RefusesWalk (text_walk input inner (LoopWords (head_seen start.old)) text.now)) }
    ensures within { IfOk result (λ rest.
        tokens_left input rest.now ≤ tokens_left input text.now) }
{
    let mut rest = text;
    loop {
        let (token, word) = next_token(input, rest)?;
        match token.kind {
            ScriptTokenKind::Word(_) => {
                add_loop_word(start, word)?;
                rest = token.rest;
            }
            ScriptTokenKind::Semi => return Ok(token.rest),
            ScriptTokenKind::Line => return Ok(token.rest),
            _ => return Err(refused_at(inner, &token)),
        }
    }
}

#[tactic(auto, using(crate::proofs::WalkLemmas::do_next))]
fn read_do<'a>(
    input: ScriptInput,
    inner: Nesting,
    start: &LoopStart,
    text: &'a [u8],
) -> Result<&'a [u8], ScriptError>
    ensures ok { IfOk result (λ rest. text_walk input inner (LoopDo (head_seen start.now)) text.now
        ≡ loop_body_walk input inner start.now rest.now) }
    ensures refused { IfErr result
        (RefusesWalk (text_walk input inner (LoopDo (head_seen start.now)) text.now)) }
    ensures within { IfOk result (λ rest.
        tokens_left input rest.now ≤ tokens_left input text.now) }
{
    let mut rest = text;
    loop {
        let (token, _) = next_token(input, rest)?;
        if is_do(token.kind) {
            return Ok(token.rest);
        }
        if !is_line(token.kind) {
            return Err(misplaced(inner, &token));
        }
        rest = token.rest;
    }
}
