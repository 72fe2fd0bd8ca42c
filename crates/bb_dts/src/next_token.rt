ghost use Rattle.std.specs.Prelude.{◌≡◌, ◌≢◌, ◌<◌, ◌≤◌, ◌-◌, Ok, Err, IfOk, IfErr, length};
ghost use Rattle.bb_dts.specs.declared.token_kind.TokenKind.TheVariants.{End};
ghost use Rattle.bb_dts.specs.Tokens.{first_token, token_seen, word_of, IsPlainWord};

use crate::DtsError;
use crate::token::token_at;
use crate::token_kind::{Lexed, Mode, TokenKind};

/// A token of the text.
#[derive(Clone, Copy, Debug)]
pub(crate) struct Token<'a> {
    pub kind: TokenKind,
    /// What it says: a label's name, a string's inside, and otherwise all its bytes.
    pub word: &'a [u8],
    /// The offset at which it begins.
    pub at: usize,
    /// The text after it.
    pub rest: &'a [u8],
}

/// The first token of the text, after blanks and comments. The text is the end of one of `total`
/// bytes.
pub(crate) fn next_token(mode: Mode, total: usize, text: &[u8]) -> Result<Token<'_>, DtsError>
    requires { length text.now ≤ total }
    ensures found { IfOk result (λ t. first_token mode total 0 text.now ≡ Ok (token_seen t)) }
    ensures refused { IfErr result (λ e. first_token mode total 0 text.now ≡ Err e) }
    ensures plain { IfOk result (λ t. IsPlainWord t.kind t.word.now) }
    ensures within { IfOk result (λ t. length t.rest.now ≤ length text.now) }
    ensures shorter { IfOk result (λ t. t.kind ≢ End → length t.rest.now < length text.now) }
{
    let mut rest = text;
    while !rest.is_empty() {
        let at = total - rest.len();
        match token_at(mode, rest) {
            Lexed::Blank(n) => rest = &rest[n + 1..],
            Lexed::Token(kind, n) => {
                let (bytes, rest) = rest.split_at(n + 1);
                let word = word_of(kind, bytes);
                return Ok(Token {
                    kind,
                    word,
                    at,
                    rest,
                });
            }
            Lexed::BadToken => return Err(DtsError::BadToken(at)),
            Lexed::LeftOut => return Err(DtsError::LeftOut(at)),
        }
    }
    Ok(Token {
        kind: TokenKind::End,
        word: &[],
        at: total,
        rest: &[],
    })
}

#[tactic(auto, unfolding(crate::specs::Tokens::word_of))]
fn word_of(kind: TokenKind, bytes: &[u8]) -> &[u8]
    requires { 1 ≤ length bytes.now }
    ensures { result.now ≡ word_of kind bytes.now }
{
    match kind {
        TokenKind::Reference => &bytes[1..],
        TokenKind::Label => &bytes[..bytes.len() - 1],
        TokenKind::Quoted => {
            let inside = &bytes[1..];
            &inside[..bytes.len().saturating_sub(2)]
        }
        _ => bytes,
    }
}
