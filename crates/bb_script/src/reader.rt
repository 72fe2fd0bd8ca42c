ghost use Rattle.std.specs.Prelude.{◌≡◌, ◌≢◌, ◌≤◌, ◌<◌, ◌∷◌, [], IfOk, IfErr, OnOk, map};
ghost use Rattle.bb_script.specs.Descent.{RefusesInside, RefusesWalk, close_walk, fresh_walk};
ghost use Rattle.bb_script.specs.Descent.{steps_walk, text_walk, tokens_left};
ghost use Rattle.bb_script.specs.TokenWalks.{token_walk};
ghost use Rattle.bb_script.specs.Descent.{walk_after, walk_due, walk_inside};
ghost use Rattle.bb_script.specs.Tree.{choose};
ghost use Rattle.bb_script.specs.Views.{command_tree, if_tree, loop_tree, step_pair};
ghost use Rattle.bb_script.specs.Places.{LoopName, TestOf};

use crate::build::{
    add_branch, add_step, script_of_steps, with_else, with_loop_body, without_else,
};
use crate::command::{command_start, read_simple};
use crate::keyword::{closes_script, is_done, is_elif, is_else, is_fi, is_then};
use crate::loop_start::read_loop_start;
use crate::misplaced::{deeper, misplaced, refused_at};
use crate::next_token::next_token;
use crate::token::{Nesting, ScriptInput, ScriptToken};
use crate::token_kind::{Keyword, ScriptTokenKind};
use crate::{Choice, ForLoop, Script, ScriptCommand, ScriptError, ScriptStep, When, Word};

/// The steps of a script, to the keyword that closes it or the text's end.
#[cycle(read)]
#[tactic(auto, using(crate::proofs::WalkLemmas::fresh_steps, crate::proofs::WalkLemmas::steps_next, crate::proofs::WalkLemmas::due_refusal, crate::proofs::WalkLemmas::due_unless_memory))]
pub(crate) fn read_steps<'a>(
    input: ScriptInput,
    nesting: Nesting,
    text: &'a [u8],
) -> Result<(Script, ScriptToken<'a>), ScriptError>
    ensures ok { IfOk result (λ r. fresh_walk input nesting text.now
        ≡ close_walk input nesting r.0 r.1) }
    ensures refused { IfErr result (RefusesInside (fresh_walk input nesting text.now)) }
    ensures shorter { IfOk result (λ r. r.1.kind ≢ ScriptTokenKind.End
        → tokens_left input r.1.rest.now < tokens_left input text.now) }
    ensures within { IfOk result (λ r.
        tokens_left input r.1.rest.now ≤ tokens_left input text.now) }
{
    let mut steps = Vec::new(input.alloc);
    let mut rest = text;
    loop {
        let (token, word) = next_token(input, rest)?;
        match token.kind {
            ScriptTokenKind::Line => rest = token.rest,
            ScriptTokenKind::End => return Ok((script_of_steps(steps), token)),
            ScriptTokenKind::Word(keyword) => {
                if closes_script(keyword) {
                    return Ok((script_of_steps(steps), token));
                }
                rest = read_chain(input, nesting, &mut steps, keyword, &token, word)?;
            }
            _ => return Err(refused_at(nesting, &token)),
        }
    }
}

// Commands with operators between them, the first of which begins with this word, and what ends
// them.
#[cycle(read)]
#[tactic(auto, using(crate::proofs::WalkLemmas::closed_next, crate::proofs::WalkLemmas::due_refusal, crate::proofs::WalkLemmas::due_unless_memory))]
fn read_chain<'a>(
    input: ScriptInput,
    nesting: Nesting,
    steps: &mut Vec<ScriptStep>,
    keyword: Keyword,
    first: &ScriptToken<'a>,
    word: Word,
) -> Result<&'a [u8], ScriptError>
    ensures ok { IfOk result (λ rest. walk_due (map step_pair steps.old.items) When.Always
        (token_walk input nesting keyword first.now word)
        ≡ steps_walk input nesting (map step_pair steps.new.items) rest.now) }
    ensures refused { IfErr result (RefusesInside (walk_due (map step_pair steps.old.items)
        When.Always (token_walk input nesting keyword first.now word))) }
    ensures within { IfOk result (λ rest.
        tokens_left input rest.now ≤ tokens_left input first.now.rest.now) }
{
    let mut due = When::Always;
    let mut keyword = keyword;
    let mut token = *first;
    let mut word = word;
    loop {
        let (command, rest) = read_command(input, nesting, keyword, &token, word)?;
        add_step(steps, due, command)?;
        let (mark, _) = next_token(input, rest)?;
        match mark.kind {
            ScriptTokenKind::Semi => return Ok(mark.rest),
            ScriptTokenKind::Line => return Ok(mark.rest),
            ScriptTokenKind::End => return Ok(rest),
            ScriptTokenKind::And => due = When::OnSuccess,
            ScriptTokenKind::Or => due = When::OnFailure,
            _ => return Err(misplaced(nesting, &mark)),
        }
        let (next_keyword, next, next_word) = command_start(input, nesting, mark.rest)?;
        keyword = next_keyword;
        token = next;
        word = next_word;
    }
}

// The command that begins with this word.
#[cycle(read)]
fn read_command<'a>(
    input: ScriptInput,
    nesting: Nesting,
    keyword: Keyword,
    first: &ScriptToken<'a>,
    word: Word,
) -> Result<(ScriptCommand, &'a [u8]), ScriptError>
    ensures ok { IfOk result (λ r. token_walk input nesting keyword first.now word
        ≡ walk_after input nesting (command_tree r.0) r.1.now) }
    ensures refused { IfErr result
        (RefusesWalk (token_walk input nesting keyword first.now word)) }
    ensures within { IfOk result (λ r.
        tokens_left input r.1.now ≤ tokens_left input first.now.rest.now) }
{
    match keyword {
        Keyword::Plain => read_simple(input, nesting, word, first.rest),
        Keyword::In => read_simple(input, nesting, word, first.rest),
        Keyword::If => {
            let inner = deeper(nesting, first.at)?;
            let (choice, rest) = read_if(input, nesting, inner, first.rest)?;
            Ok((ScriptCommand::If(choice), rest))
        }
        Keyword::For => {
            let inner = deeper(nesting, first.at)?;
            let (for_loop, rest) = read_for(input, nesting, inner, first.rest)?;
            Ok((ScriptCommand::For(for_loop), rest))
        }
        _ => Err(ScriptError::Unexpected(first.at)),
    }
}

// After an `if`, to what follows its `fi`.
#[cycle(read)]
#[tactic(auto, using(crate::proofs::WalkLemmas::test_next, crate::proofs::WalkLemmas::then_next, crate::proofs::WalkLemmas::else_next, crate::proofs::WalkLemmas::inside_refusal, crate::proofs::WalkLemmas::inside_unless_memory))]
fn read_if<'a>(
    input: ScriptInput,
    nesting: Nesting,
    inner: Nesting,
    text: &'a [u8],
) -> Result<(Choice, &'a [u8]), ScriptError>
    ensures ok { IfOk result (λ r.
        walk_inside nesting (TestOf []) (fresh_walk input inner text.now)
        ≡ walk_after input nesting (choose (if_tree r.0)) r.1.now) }
    ensures refused { IfErr result
        (RefusesWalk (walk_inside nesting (TestOf []) (fresh_walk input inner text.now))) }
    ensures within { IfOk result (λ r. tokens_left input r.1.now ≤ tokens_left input text.now) }
{
    let mut branches = Vec::new(input.alloc);
    let mut rest = text;
    loop {
        let (test, then) = read_steps(input, inner, rest)?;
        if !is_then(then.kind) {
            return Err(misplaced(inner, &then));
        }
        let (body, token) = read_steps(input, inner, then.rest)?;
        add_branch(&mut branches, test, body)?;
        if is_fi(token.kind) {
            return Ok((without_else(branches), token.rest));
        }
        if is_else(token.kind) {
            let (steps, fi) = read_steps(input, inner, token.rest)?;
            if !is_fi(fi.kind) {
                return Err(misplaced(inner, &fi));
            }
            return Ok((with_else(branches, steps), fi.rest));
        }
        if !is_elif(token.kind) {
            return Err(misplaced(inner, &token));
        }
        rest = token.rest;
    }
}

// After a `for`, to what follows its `done`.
#[cycle(read)]
#[tactic(auto, using(crate::proofs::WalkLemmas::loop_next, crate::proofs::WalkLemmas::inside_refusal, crate::proofs::WalkLemmas::inside_unless_memory))]
fn read_for<'a>(
    input: ScriptInput,
    nesting: Nesting,
    inner: Nesting,
    text: &'a [u8],
) -> Result<(ForLoop, &'a [u8]), ScriptError>
    ensures ok { IfOk result (λ r. text_walk input inner (LoopName nesting) text.now
        ≡ walk_after input nesting (loop_tree r.0) r.1.now) }
    ensures refused { IfErr result
        (RefusesWalk (text_walk input inner (LoopName nesting) text.now)) }
    ensures within { IfOk result (λ r. tokens_left input r.1.now ≤ tokens_left input text.now) }
{
    let (start, rest) = read_loop_start(input, nesting, inner, text)?;
    let (body, token) = read_steps(input, inner, rest)?;
    if !is_done(token.kind) {
        return Err(misplaced(inner, &token));
    }
    Ok((with_loop_body(start, body), token.rest))
}
