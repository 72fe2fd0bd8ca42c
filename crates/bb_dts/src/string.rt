ghost use Rattle.std.specs.Prelude.{◌≡◌, ◌++◌, ◌<◌, ◌≤◌, ◌==◌, not, false, IfSome, IfOk, OnOk};
ghost use Rattle.std.specs.Prelude.{length};
ghost use Rattle.std.specs.List.{prefix_len};
ghost use Rattle.bb_dts.specs.Characters.{is_octal, is_hexadecimal};
ghost use Rattle.bb_dts.specs.Numbers.{value_in_radix};
ghost use Rattle.bb_dts.specs.Strings.{named_escape, byte_of, octal_len, hexadecimal_len};
ghost use Rattle.bb_dts.specs.Strings.{escape_of, string_len, quoted_bytes};

use crate::character::{is_hexadecimal, is_octal};
use crate::number::read_digits;
use bb_base::{Bytes, NoMemory};

/// How many bytes stand before the `"` that ends a string, after the one that begins it. `None`
/// where none does or an escape is malformed.
pub(crate) fn string_len(text: &[u8]) -> Option<usize>
    ensures value { result ≡ string_len false text.now }
    ensures within { IfSome result (λ n. n < length text.now) }
{
    let mut escaped = false;
    for i in 0..text.len() {
        if escaped {
            escape(&text[i..])?;
            escaped = false;
        } else if text[i] == b'"' {
            return Some(i);
        } else {
            escaped = text[i] == b'\\';
        }
    }
    None
}

/// Appends the bytes of a string, from the text between its quotes. After an `Err` some of them are
/// appended.
pub(crate) fn unescape(value: &mut Bytes, text: &[u8]) -> Result<(), NoMemory>
    ensures { OnOk result (value.new ≡ value.old ++ quoted_bytes 0 text.now) }
{
    let mut rest = text;
    while !rest.is_empty() {
        rest = unescape_front(value, rest)?;
    }
    Ok(())
}

// Appends the bytes of an escape, or of all characters before the next one. The rest is left.
fn unescape_front<'a>(value: &mut Bytes, text: &'a [u8]) -> Result<&'a [u8], NoMemory>
    requires { 0 < length text.now }
    ensures ok { IfOk result (λ rest. value.new ++ quoted_bytes 0 rest.now
        ≡ value.old ++ quoted_bytes 0 text.now) }
    ensures shorter { IfOk result (λ rest. length rest.now < length text.now) }
{
    if text[0] == b'\\' {
        let Some((byte, len)) = escape(&text[1..]) else {
            return Ok(&[]);
        };
        value.add(&[byte])?;
        return Ok(&text[1 + len..]);
    }
    let (plain, rest) = text.split_at(plain_len(text));
    value.add(plain)?;
    Ok(rest)
}

fn plain_len(text: &[u8]) -> usize
    ensures value { result ≡ prefix_len (λ c. not (c == 92)) text.now }
    ensures within { result ≤ length text.now }
{
    text.iter().take_while(|c| **c != b'\\').count()
}

// The byte that an escape gives, and how many characters it has after its `\`.
#[tactic(auto, unfolding(crate::specs::Strings::escape_of))]
fn escape(text: &[u8]) -> Option<(u8, usize)>
    ensures value { result ≡ escape_of text.now }
    ensures within { IfSome result (λ escape. escape.1 ≤ length text.now) }
{
    let [first, tail @ ..] = text else {
        return None;
    };
    let octal = octal_len(text);
    if octal > 0 {
        return Some((read_byte(8, &text[..octal])?, octal));
    }
    if *first == b'x' {
        let len = hexadecimal_len(tail);
        return Some((read_byte(16, &tail[..len])?, len + 1));
    }
    Some((named_escape(*first), 1))
}

fn octal_len(text: &[u8]) -> usize
    ensures value { result ≡ octal_len text.now }
    ensures within { result ≤ length text.now }
{
    let digits = &text[..text.len().min(3)];
    digits.iter().take_while(|c| is_octal(**c)).count()
}

fn hexadecimal_len(text: &[u8]) -> usize
    ensures value { result ≡ hexadecimal_len text.now }
    ensures within { result ≤ length text.now }
{
    let digits = &text[..text.len().min(2)];
    digits.iter().take_while(|c| is_hexadecimal(**c)).count()
}

pub(crate) fn read_byte(radix: u32, digits: &[u8]) -> Option<u8>
    requires few { radix ≤ 36 }
    requires some { 2 ≤ radix }
    ensures { result ≡ byte_of (value_in_radix radix digits.now) }
{
    u8::try_from(read_digits(radix, digits).ok()?).ok()
}

fn named_escape(c: u8) -> u8
    ensures { result ≡ named_escape c }
{
    match c {
        b'a' => 7,
        b'b' => 8,
        b't' => 9,
        b'n' => 10,
        b'v' => 11,
        b'f' => 12,
        b'r' => 13,
        c => c,
    }
}
