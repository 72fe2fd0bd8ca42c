ghost use Rattle.std.specs.Prelude.{◌≡◌, ◌≤◌, ◌<◌, [], IfSome, length};
ghost use Rattle.std.specs.Option.{option_map};
ghost use Rattle.bb_tree.specs.Blob.{whole_words};
ghost use Rattle.bb_fdt.specs.Tokens.{token_at, token_seen, node_at, prop_at};

use crate::header::word_at;
use crate::name::up_to_zero;
use crate::token_kind::TokenKind;

/// A token of the structure block.
#[derive(Clone, Copy, Debug)]
pub(crate) struct Token<'a> {
    pub kind: TokenKind,
    /// A node's name or a property's value.
    pub bytes: &'a [u8],
    /// Where a property's name begins in the strings block.
    pub name_at: u32,
    /// How many bytes the token has after its first one.
    pub behind: usize,
}

/// The token that the text begins with, or none where the text ends within it or its first word
/// names none.
#[tactic(auto, unfolding(crate::specs::Tokens::token_at))]
pub(crate) fn token_at(text: &[u8]) -> Option<Token<'_>>
    ensures within { IfSome result (λ t. t.behind < length text.now) }
    ensures token { option_map (λ t. token_seen t) result ≡ token_at text.now }
{
    if text.len() < 4 {
        return None;
    }
    match word_at(text, 0) {
        1 => node_at(text),
        2 => Some(bare(TokenKind::EndNode)),
        3 => prop_at(text),
        4 => Some(bare(TokenKind::Nop)),
        9 => Some(bare(TokenKind::End)),
        _ => None,
    }
}

fn bare<'a>(kind: TokenKind) -> Token<'a>
    ensures kind { result.kind ≡ kind }
    ensures bytes { result.bytes.now ≡ [] }
    ensures name_at { result.name_at ≡ 0 }
    ensures behind { result.behind ≡ 3 }
{
    Token {
        kind,
        bytes: &[],
        name_at: 0,
        behind: 3,
    }
}

// A text that begins with FDT_BEGIN_NODE.
#[tactic(auto, unfolding(crate::specs::Tokens::node_at))]
fn node_at(text: &[u8]) -> Option<Token<'_>>
    requires { 4 ≤ length text.now }
    ensures within { IfSome result (λ t. t.behind < length text.now) }
    ensures token { option_map (λ t. token_seen t) result ≡ node_at text.now }
{
    let name = up_to_zero(text.split_at(4).1)?;
    let token = Token {
        kind: TokenKind::BeginNode,
        bytes: name,
        name_at: 0,
        behind: 3 + whole_words(name.len() + 1),
    };
    if token.behind < text.len() {
        Some(token)
    } else {
        None
    }
}

// A text that begins with FDT_PROP.
#[tactic(auto, unfolding(crate::specs::Tokens::prop_at))]
fn prop_at(text: &[u8]) -> Option<Token<'_>>
    requires { 4 ≤ length text.now }
    ensures within { IfSome result (λ t. t.behind < length text.now) }
    ensures token { option_map (λ t. token_seen t) result ≡ prop_at text.now }
{
    if text.len() < 12 {
        return None;
    }
    let len = word_at(text, 4) as usize;
    let behind = 11 + whole_words(len);
    if text.len() <= behind {
        return None;
    }
    Some(Token {
        kind: TokenKind::Property,
        bytes: text.split_at(12).1.split_at(len).0,
        name_at: word_at(text, 8),
        behind,
    })
}

/// The next multiple of 4.
pub(crate) fn whole_words(len: usize) -> usize
    requires { len ≤ 9223372036854775808 }
    ensures { result ≡ whole_words len }
{
    4 * ((len + 3) / 4)
}
