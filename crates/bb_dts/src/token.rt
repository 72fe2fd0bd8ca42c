ghost use Rattle.std.specs.Prelude.{◌≡◌, ◌==◌, ◌+◌, ◌<◌, ◌≤◌, ◌&&◌, ◌∷◌, ℕ, List, not, false};
ghost use Rattle.std.specs.Prelude.{nat_eq, IfSome, IsTrue, is_some, length};
ghost use Rattle.std.specs.List.{prefix_len, list_any, starts_with};
ghost use Rattle.std.specs.Str.{bytes_eq};
ghost use Rattle.bb_dts.specs.Characters.{is_name_character, is_word, is_blank, is_hexadecimal};
ghost use Rattle.bb_dts.specs.Numbers.{number_value};
ghost use Rattle.bb_dts.specs.Tokens.{token_at, slash_at, quoted_at, reference_at, word_at};
ghost use Rattle.bb_dts.specs.Tokens.{name_at, number_token, value_token, byte_at, mark_of};
ghost use Rattle.bb_dts.specs.Tokens.{comment_len};
ghost use Rattle.bb_dts.specs.Tokens.{label_len, left_out_words, directives, IsWithin, IsPlain};

use crate::character::{begins_label, is_blank, is_hexadecimal, is_name, is_word};
use crate::number::{NumberFault, read_number};
use crate::string::string_len;
use crate::token_kind::{Lexed, Mode, TokenKind};

/// What the text begins with.
#[tactic(auto, unfolding(crate::specs::Tokens::token_at))]
pub(crate) fn token_at(mode: Mode, text: &[u8]) -> Lexed
    ensures value { result ≡ token_at mode text.now }
    ensures within { IsWithin result (length text.now) }
    ensures plain { IsPlain result text.now }
{
    let [first, tail @ ..] = text else {
        return Lexed::BadToken;
    };
    match *first {
        b'/' => slash_at(tail),
        b'"' => quoted_at(tail),
        b'&' => reference_at(tail),
        b'(' | b'\'' => Lexed::LeftOut,
        c if is_blank(c) => Lexed::Blank(blank_len(tail)),
        c => match mark_of(c) {
            Some(kind) => Lexed::Token(kind, 0),
            None => word_at(mode, text),
        },
    }
}

fn blank_len(text: &[u8]) -> usize
    ensures value { result ≡ prefix_len is_blank text.now }
    ensures within { result ≤ length text.now }
{
    text.iter().take_while(|c| is_blank(**c)).count()
}

fn mark_of(c: u8) -> Option<TokenKind>
    ensures { result ≡ mark_of c }
{
    match c {
        b'{' => Some(TokenKind::OpenBrace),
        b'}' => Some(TokenKind::CloseBrace),
        b';' => Some(TokenKind::Semicolon),
        b'=' => Some(TokenKind::Equals),
        b'<' => Some(TokenKind::Less),
        b'>' => Some(TokenKind::Greater),
        b'[' => Some(TokenKind::OpenBracket),
        b']' => Some(TokenKind::CloseBracket),
        _ => None,
    }
}

fn quoted_at(tail: &[u8]) -> Lexed
    ensures value { result ≡ quoted_at tail.now }
    ensures within { IsWithin result (length tail.now + 1) }
{
    match string_len(tail) {
        Some(n) => Lexed::Token(TokenKind::Quoted, n + 1),
        None => Lexed::BadToken,
    }
}

// After a `/`.
#[tactic(auto, unfolding(crate::specs::Tokens::slash_at))]
fn slash_at(tail: &[u8]) -> Lexed
    ensures value { result ≡ slash_at tail.now }
    ensures within { IsWithin result (length tail.now + 1) }
    ensures plain { (text : List ℕ) → IsPlain result text }
{
    if tail.starts_with(b"/") {
        Lexed::Blank(line_len(tail))
    } else if tail.starts_with(b"*") {
        match comment_len(&tail[1..]) {
            Some(n) => Lexed::Blank(n + 1),
            None => Lexed::BadToken,
        }
    } else if tail.starts_with(b"dts-v1/") {
        Lexed::Token(TokenKind::DtsV1, 7)
    } else if tail.starts_with(b"memreserve/") {
        Lexed::Token(TokenKind::Memreserve, 11)
    } else if is_left_out(tail) {
        Lexed::LeftOut
    } else {
        Lexed::Token(TokenKind::Slash, 0)
    }
}

fn line_len(text: &[u8]) -> usize
    ensures value { result ≡ prefix_len (λ c. not (c == 10)) text.now }
    ensures within { result ≤ length text.now }
{
    text.iter().take_while(|c| **c != b'\n').count()
}

// How many bytes a comment has after its `/*`, with its `*/`.
fn comment_len(text: &[u8]) -> Option<usize>
    ensures value { result ≡ comment_len text.now }
    ensures within { IfSome result (λ n. n ≤ length text.now) }
{
    for i in 0..text.len() {
        if text[i..].starts_with(b"*/") {
            return Some(i + 2);
        }
    }
    None
}

fn is_left_out(tail: &[u8]) -> bool
    ensures { result ≡ list_any (starts_with nat_eq tail.now) left_out_words }
{
    tail.starts_with(b"include/")
        || tail.starts_with(b"incbin/")
        || tail.starts_with(b"plugin/")
        || tail.starts_with(b"delete-node/")
        || tail.starts_with(b"delete-property/")
        || tail.starts_with(b"omit-if-no-ref/")
        || tail.starts_with(b"bits/")
}

// After a `&`.
#[tactic(auto, unfolding(crate::specs::Tokens::reference_at))]
fn reference_at(tail: &[u8]) -> Lexed
    ensures value { result ≡ reference_at tail.now }
    ensures within { IsWithin result (length tail.now + 1) }
    ensures plain { IsPlain result (38 ∷ tail.now) }
{
    if tail.starts_with(b"{") {
        return Lexed::LeftOut;
    }
    match label_len(tail) {
        0 => Lexed::BadToken,
        n => Lexed::Token(TokenKind::Reference, n),
    }
}

// How many characters a label's name has here.
fn label_len(text: &[u8]) -> usize
    ensures value { result ≡ label_len text.now }
    ensures within { result ≤ length text.now }
{
    match text {
        [first, ..] if begins_label(*first) => word_len(text),
        _ => 0,
    }
}

fn word_len(text: &[u8]) -> usize
    ensures value { result ≡ prefix_len is_word text.now }
    ensures within { result ≤ length text.now }
{
    text.iter().take_while(|c| is_word(**c)).count()
}

fn word_at(mode: Mode, text: &[u8]) -> Lexed
    ensures value { result ≡ word_at mode text.now }
    ensures within { IsWithin result (length text.now) }
    ensures plain { IsPlain result text.now }
{
    match mode {
        Mode::Directives => name_at(true, text),
        Mode::Names => name_at(false, text),
        Mode::Values => value_at(text),
        Mode::Numbers => number_at(text),
        Mode::Pairs => byte_at(text),
    }
}

#[tactic(auto, unfolding(crate::specs::Tokens::name_at))]
fn name_at(with_directives: bool, text: &[u8]) -> Lexed
    ensures value { result ≡ name_at with_directives text.now }
    ensures within { IsWithin result (length text.now) }
    ensures plain { IsPlain result text.now }
{
    let label = label_len(text);
    if label > 0 && text[label..].starts_with(b":") {
        return Lexed::Token(TokenKind::Label, label);
    }
    let name = name_len(text);
    if with_directives && is_directive(&text[..name]) {
        Lexed::LeftOut
    } else if name > 0 {
        Lexed::Token(TokenKind::Name, name - 1)
    } else {
        Lexed::BadToken
    }
}

fn name_len(text: &[u8]) -> usize
    ensures value { result ≡ prefix_len is_name_character text.now }
    ensures within { result ≤ length text.now }
{
    text.iter().take_while(|c| is_name(**c)).count()
}

fn is_directive(word: &[u8]) -> bool
    ensures { result ≡ list_any (bytes_eq word.now) directives }
{
    word == b"#include".as_slice()
        || word == b"#define".as_slice()
        || word == b"#undef".as_slice()
        || word == b"#if".as_slice()
        || word == b"#ifdef".as_slice()
        || word == b"#ifndef".as_slice()
        || word == b"#elif".as_slice()
        || word == b"#else".as_slice()
        || word == b"#endif".as_slice()
}

#[tactic(auto, unfolding(crate::specs::Tokens::value_token))]
fn value_at(text: &[u8]) -> Lexed
    ensures value { result ≡ value_token text.now }
    ensures within { IsWithin result (length text.now) }
    ensures plain { IsPlain result text.now }
{
    if text.starts_with(b",") {
        return Lexed::Token(TokenKind::Comma, 0);
    }
    match name_in_value_len(text) {
        0 => Lexed::BadToken,
        n => Lexed::Token(TokenKind::Name, n - 1),
    }
}

fn name_in_value_len(text: &[u8]) -> usize
    ensures value { result ≡ prefix_len (λ c. is_name_character c && not (c == 44)) text.now }
    ensures within { result ≤ length text.now }
{
    text.iter()
        .take_while(|c| is_name(**c) && **c != b',')
        .count()
}

#[tactic(auto, unfolding(crate::specs::Tokens::number_token))]
fn number_at(text: &[u8]) -> Lexed
    ensures value { result ≡ number_token text.now }
    ensures within { IsWithin result (length text.now) }
    ensures plain { IsPlain result text.now }
{
    let n = word_len(text);
    if is_number(&text[..n]) {
        Lexed::Token(TokenKind::Number, n - 1)
    } else {
        Lexed::BadToken
    }
}

fn is_number(word: &[u8]) -> bool
    ensures value { result ≡ is_some (number_value word.now) }
    ensures some { IsTrue result → 0 < length word.now }
{
    match read_number(word) {
        Err(NumberFault::Malformed) => false,
        Err(NumberFault::TooLarge) | Ok(_) => true,
    }
}

fn byte_at(text: &[u8]) -> Lexed
    ensures value { result ≡ byte_at text.now }
    ensures within { IsWithin result (length text.now) }
{
    match text {
        [high, low, ..] if is_hexadecimal(*high) && is_hexadecimal(*low) => {
            Lexed::Token(TokenKind::Byte, 1)
        }
        _ => Lexed::BadToken,
    }
}
