ghost use Rattle.std.specs.Prelude.{◌≡◌, ◌≤◌, ◌<◌, ◌^◌, Ok, Err, IfOk, IfErr, length};
ghost use Rattle.bb_dts.specs.Outermost.{reserved_of};
ghost use Rattle.bb_dts.specs.Tokens.{first_token};
ghost use Rattle.bb_dts.specs.Walk.{number_below};
ghost use Rattle.bb_dts.specs.declared.token_kind.Mode.TheVariants.{Numbers};

use crate::DtsError;
use crate::input::Input;
use crate::next_token::next_token;
use crate::number::{NumberFault, read_number};
use crate::token_kind::{Mode, TokenKind};

/// Reads the address or the length of a reserve.
pub(crate) fn read_reserved(input: Input, text: &[u8]) -> Result<(u64, &[u8]), DtsError>
    requires { length text.now ≤ input.total }
    ensures ok { IfOk result
        (λ r. reserved_of (first_token Numbers input.total 0 text.now) ≡ Ok (r.0, r.1.now)) }
    ensures refused { IfErr result
        (λ e. reserved_of (first_token Numbers input.total 0 text.now) ≡ Err e) }
    ensures shorter { IfOk result (λ r. length r.1.now < length text.now) }
{
    let token = next_token(Mode::Numbers, input.total, text)?;
    match token.kind {
        TokenKind::Number => Ok((long_number(token.word, token.at)?, token.rest)),
        _ => Err(DtsError::Unexpected(token.at)),
    }
}

fn long_number(word: &[u8], at: usize) -> Result<u64, DtsError>
    ensures { result ≡ number_below (2 ^ 64) word.now at }
{
    match read_number(word) {
        Ok(n) => Ok(n),
        Err(NumberFault::Malformed) => Err(DtsError::BadToken(at)),
        Err(NumberFault::TooLarge) => Err(DtsError::NumberTooLarge(at)),
    }
}
