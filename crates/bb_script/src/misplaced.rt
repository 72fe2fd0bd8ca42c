ghost use Rattle.std.specs.Prelude.{◌≡◌, IfOk, IfErr, false, nat_lt, true};
ghost use Rattle.bb_script.specs.Places.{deeper, misplaced, refused_at, unclosed};

use crate::ScriptError;
use crate::token::{Nesting, ScriptToken};
use crate::token_kind::ScriptTokenKind;

/// How many `if` and `for` may be open.
pub const NESTING_LIMIT: usize = 16;

/// The refusal of a token in a wrong place, or of the text's end there.
pub(crate) fn misplaced(nesting: Nesting, token: &ScriptToken<'_>) -> ScriptError
    ensures { result ≡ misplaced nesting token.now.at token.now.kind }
{
    match token.kind {
        ScriptTokenKind::End => unclosed(nesting, token.at),
        ScriptTokenKind::Cut => unclosed(nesting, token.at),
        _ => ScriptError::Unexpected(token.at),
    }
}

/// The same where a word may come: one that is malformed is refused for that.
pub(crate) fn refused_at(nesting: Nesting, token: &ScriptToken<'_>) -> ScriptError
    ensures { result ≡ refused_at nesting token.now.at token.now.kind }
{
    match token.kind {
        ScriptTokenKind::BadWord(e) => e,
        _ => misplaced(nesting, token),
    }
}

// The text ends at this offset.
fn unclosed(nesting: Nesting, at: usize) -> ScriptError
    ensures { result ≡ unclosed at nesting.opened }
{
    match nesting.opened {
        None => ScriptError::Unexpected(at),
        Some(from) => ScriptError::Unclosed(from),
    }
}

/// Inside of the `if` or `for` at this offset.
pub(crate) fn deeper(nesting: Nesting, at: usize) -> Result<Nesting, ScriptError>
    ensures shallow { IfOk result (λ inner. nat_lt nesting.level 16 ≡ true) }
    ensures deeper { IfOk result (λ inner. inner ≡ deeper nesting at) }
    ensures deep { IfErr result (λ e. nat_lt nesting.level 16 ≡ false) }
    ensures refused { IfErr result (λ e. e ≡ ScriptError.TooDeep at) }
{
    if nesting.level >= NESTING_LIMIT {
        return Err(ScriptError::TooDeep(at));
    }
    Ok(Nesting {
        level: nesting.level + 1,
        opened: Some(at),
    })
}
