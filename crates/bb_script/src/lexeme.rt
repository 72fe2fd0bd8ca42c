ghost use Rattle.std.specs.Prelude.{◌≡◌, ◌==◌, codes, not};
ghost use Rattle.std.specs.List.{prefix_len};
ghost use Rattle.bb_script.specs.Tokens.{backslash_lexeme, doubled_mark, keyword_of, lexeme_at};
ghost use Rattle.bb_script.specs.Tokens.{mark_at, spells};

use crate::piece::{begins_with, ends_word};
use crate::token_kind::{Keyword, Lexeme, ScriptTokenKind};

/// What stands between two words at this character, with this text after it.
pub(crate) fn lexeme_at(c: u8, rest: &[u8]) -> Lexeme
    ensures { result ≡ lexeme_at c rest.now }
{
    if ends_word(c) {
        return mark_at(c, rest);
    }
    match c {
        b'#' => Lexeme::Blank(line_len(rest)),
        b'\\' => backslash_lexeme(rest),
        _ => Lexeme::Begins,
    }
}

// At a character that ends words.
fn mark_at(c: u8, rest: &[u8]) -> Lexeme
    ensures { result ≡ mark_at c rest.now }
{
    match c {
        b' ' | b'\t' | b'\r' => Lexeme::Blank(0),
        b'\n' => Lexeme::Mark(ScriptTokenKind::Line, 0),
        b';' => Lexeme::Mark(ScriptTokenKind::Semi, 0),
        b'&' => doubled_mark(b'&', rest, ScriptTokenKind::And),
        b'|' => doubled_mark(b'|', rest, ScriptTokenKind::Or),
        _ => Lexeme::Mark(ScriptTokenKind::Stray, 0),
    }
}

// A character that is a token where it stands twice.
fn doubled_mark(c: u8, rest: &[u8], kind: ScriptTokenKind) -> Lexeme
    ensures { result ≡ doubled_mark c rest.now kind }
{
    if begins_with(c, rest) {
        return Lexeme::Mark(kind, 1);
    }
    Lexeme::Mark(ScriptTokenKind::Stray, 0)
}

// At a `\` where a word may begin.
fn backslash_lexeme(rest: &[u8]) -> Lexeme
    ensures { result ≡ backslash_lexeme rest.now }
{
    match rest.split_first() {
        None => Lexeme::CutOff,
        Some((c, _)) => {
            if *c == b'\n' {
                return Lexeme::Blank(1);
            }
            Lexeme::Begins
        }
    }
}

fn line_len(text: &[u8]) -> usize
    ensures { result ≡ prefix_len (λ c. not (c == 10)) text.now }
{
    text.iter().take_while(|c| **c != b'\n').count()
}

/// The keyword that these letters spell.
pub(crate) fn keyword_of(letters: &[u8]) -> Keyword
    ensures { result ≡ keyword_of letters.now }
{
    if spells(letters, b"if") {
        Keyword::If
    } else if spells(letters, b"then") {
        Keyword::Then
    } else if spells(letters, b"elif") {
        Keyword::Elif
    } else if spells(letters, b"else") {
        Keyword::Else
    } else if spells(letters, b"fi") {
        Keyword::Fi
    } else if spells(letters, b"for") {
        Keyword::For
    } else if spells(letters, b"in") {
        Keyword::In
    } else if spells(letters, b"do") {
        Keyword::Do
    } else if spells(letters, b"done") {
        Keyword::Done
    } else {
        Keyword::Plain
    }
}

fn spells(letters: &[u8], word: &[u8]) -> bool
    ensures { result ≡ spells letters.now word.now }
{
    letters.len() == word.len() && letters.starts_with(word)
}
