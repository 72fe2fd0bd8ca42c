ghost use Rattle.std.specs.Prelude.{◌≡◌, ◌≢◌, ◌-◌, ◌<◌, ◌≤◌, ◌∷◌, [], IfOk, IfErr, length};
ghost use Rattle.bb_script.specs.Descent.{ahead_in, ahead_seen, tokens_left};
ghost use Rattle.bb_script.specs.Reading.{open_seen, tokens_seen, word_seen};
ghost use Rattle.bb_script.specs.Tokens.{Within, tokens, tokens_of, word_at_end, word_begun};

use crate::lexeme::lexeme_at;
use crate::open_word::{PieceTaken, WordSoFar};
use crate::piece::{Quoting, passed, word_piece};
use crate::token::{ScriptInput, ScriptToken};
use crate::token_kind::{Lexeme, ScriptTokenKind};
use crate::{ScriptError, Word};

/// The first token of the text, and what it is made of where it is a word. The text is the end of
/// the whole one.
pub(crate) fn next_token<'a>(
    input: ScriptInput,
    text: &'a [u8],
) -> Result<(ScriptToken<'a>, Word), ScriptError>
    ensures found { IfOk result (λ r. ahead_seen input.total r.0 r.1
        ≡ ahead_in input.total (tokens_of input.total text.now)) }
    ensures memory { IfErr result (λ e. e ≡ ScriptError.NoMemory) }
    ensures shorter { IfOk result (λ r. r.0.kind ≢ ScriptTokenKind.End
        → tokens_left input r.0.rest.now < tokens_left input text.now) }
    ensures within { IfOk result (λ r.
        tokens_left input r.0.rest.now ≤ tokens_left input text.now) }
{
    let (token, word) = find_token(input, text)?;
    Ok((token, word))
}

#[tactic(auto, using(crate::proofs::TokenLemmas::between_next, crate::proofs::TokenLemmas::first_ahead))]
fn find_token<'a>(
    input: ScriptInput,
    text: &'a [u8],
) -> Result<(ScriptToken<'a>, Word), ScriptError>
    ensures found { IfOk result (λ r. ahead_seen input.total r.0 r.1
        ≡ ahead_in input.total (tokens_of input.total text.now)) }
    ensures memory { IfErr result (λ e. e ≡ ScriptError.NoMemory) }
{
    let mut rest = text;
    while let Some((c, after)) = rest.split_first() {
        let at = input.total.saturating_sub(rest.len());
        match lexeme_at(*c, after) {
            Lexeme::Blank(more) => rest = passed(after, more),
            Lexeme::Mark(kind, more) => return Ok(mark(input, kind, at, passed(after, more))),
            Lexeme::CutOff => return Ok(mark(input, ScriptTokenKind::Cut, input.total, &[])),
            Lexeme::Begins => return read_word(input, rest),
        }
    }
    Ok(mark(input, ScriptTokenKind::End, input.total, &[]))
}

// A token that is no word.
fn mark(
    input: ScriptInput,
    kind: ScriptTokenKind,
    at: usize,
    rest: &[u8],
) -> (ScriptToken<'_>, Word)
    ensures { ahead_seen input.total result.0 result.1
        ≡ record { kind = kind; word = []; at = at; rest = tokens_of input.total rest.now } }
{
    (ScriptToken { kind, at, rest }, Word::empty(input.alloc))
}

// The word that begins at the text's front.
#[tactic(auto, using(crate::proofs::TokenLemmas::within_next))]
fn read_word<'a>(input: ScriptInput, text: &'a [u8]) -> Result<(ScriptToken<'a>, Word), ScriptError>
    ensures found { IfOk result (λ r. tokens input.total 0 text.now
        (Within (word_begun (input.total - length text.now)))
        ≡ tokens_seen input.total r.0 r.1) }
    ensures memory { IfErr result (λ e. e ≡ ScriptError.NoMemory) }
{
    let mut so_far = WordSoFar {
        at: input.total.saturating_sub(text.len()),
        word: Word::empty(input.alloc),
        quoting: Quoting::Bare,
    };
    let mut rest = text;
    while let Some((c, after)) = rest.split_first() {
        let here = input.total.saturating_sub(rest.len());
        let piece = word_piece(so_far.quoting, here, *c, after);
        match so_far.take(input.alloc, after, piece)? {
            PieceTaken::GoesOn(more) => rest = passed(after, more),
            PieceTaken::HasEnded => return Ok(so_far.token(rest)),
            PieceTaken::IsBad => {
                return Ok(so_far.bad_token(input.alloc, ScriptError::Unexpected(here)));
            }
        }
    }
    Ok(at_end(input, so_far))
}

// The word that the text ends with.
fn at_end<'a>(input: ScriptInput, so_far: WordSoFar) -> (ScriptToken<'a>, Word)
    ensures seen { word_seen result.0 result.1 ∷ []
        ≡ word_at_end (open_seen so_far) so_far.quoting }
    ensures rest { result.0.rest.now ≡ [] }
{
    match so_far.quoting {
        Quoting::Bare => so_far.token(&[]),
        Quoting::Single(from) => so_far.bad_token(input.alloc, ScriptError::Unclosed(from)),
        Quoting::Double(from) => so_far.bad_token(input.alloc, ScriptError::Unclosed(from)),
    }
}
