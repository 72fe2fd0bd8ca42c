ghost use Rattle.std.specs.Prelude.{◌≡◌, ◌≤◌, ◌<◌, Ok, Err, IfOk, IfErr, length};
ghost use Rattle.bb_fdt.specs.Tokens.{first_token, found_seen};

use crate::FdtError;
use crate::token::token_at;
use crate::token_kind::TokenKind;

/// A token that was found in the structure block.
#[derive(Clone, Copy, Debug)]
pub(crate) struct Found<'a> {
    pub kind: TokenKind,
    /// A node's name or a property's value.
    pub bytes: &'a [u8],
    /// Where a property's name begins in the strings block.
    pub name_at: u32,
    /// The offset at which it begins.
    pub at: usize,
    /// The text after it.
    pub rest: &'a [u8],
}

/// The first token of the text but FDT_NOP. The text ends at the offset `end`.
pub(crate) fn next_token(end: usize, text: &[u8]) -> Result<Found<'_>, FdtError>
    requires { length text.now ≤ end }
    ensures found { IfOk result (λ f. first_token end 0 text.now ≡ Ok (found_seen f)) }
    ensures refused { IfErr result (λ e. first_token end 0 text.now ≡ Err e) }
    ensures shorter { IfOk result (λ f. length f.rest.now < length text.now) }
{
    let mut rest = text;
    while !rest.is_empty() {
        let at = end - rest.len();
        let Some(token) = token_at(rest) else {
            return Err(FdtError::BadToken(at));
        };
        let (_, behind) = rest.split_at(token.behind + 1);
        match token.kind {
            TokenKind::Nop => rest = behind,
            kind => {
                return Ok(Found {
                    kind,
                    bytes: token.bytes,
                    name_at: token.name_at,
                    at,
                    rest: behind,
                });
            }
        }
    }
    Err(FdtError::BadToken(end))
}
