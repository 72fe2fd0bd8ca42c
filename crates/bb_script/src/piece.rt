ghost use Rattle.std.specs.Prelude.{◌≡◌, ◌+◌, ◌≤◌, ◌<◌, codes, length, take, drop};
ghost use Rattle.bb_script.specs.Pieces.{bare_piece, begins_with, braced_piece, dollar_piece};
ghost use Rattle.bb_script.specs.Pieces.{ends_word, escaped_piece, is_in_variable, is_one_of};
ghost use Rattle.bb_script.specs.Pieces.{named_piece, quoted_escape, variable_len, word_piece};

/// Whether quotes are open, and the offset at which they began.
#[derive(Clone, Copy, Debug, PartialEq, Eq)]
pub(crate) enum Quoting {
    Bare,
    Single(usize),
    Double(usize),
}

/// What stands in a word at a character.
#[derive(Clone, Copy, Debug, PartialEq, Eq)]
pub(crate) enum WordPiece {
    /// The word ends before this character.
    Ends,
    /// A `${` without a name and a `}`.
    Refuses,
    /// Nothing: a `\` and a LF.
    Drops,
    /// A letter, and how many bytes more it takes to write it.
    Letter(u8, usize),
    /// A letter that is quoted by the `\` in front of it.
    Escaped(u8),
    /// Quotes begin.
    Opens(Quoting),
    /// Quotes end.
    Closes,
    /// A variable's value: how many bytes stand between `$` and its name, how many the name has,
    /// and how many come after `$` in all.
    Value(usize, usize, usize),
    /// The last status.
    Status,
}

/// What stands in a word at this character, which has this offset and this text after it.
pub(crate) fn word_piece(quoting: Quoting, at: usize, c: u8, rest: &[u8]) -> WordPiece
    ensures { result ≡ word_piece quoting at c rest.now }
{
    match quoting {
        Quoting::Bare => bare_piece(at, c, rest),
        Quoting::Single(_) => {
            if c == b'\'' {
                return WordPiece::Closes;
            }
            WordPiece::Letter(c, 0)
        }
        Quoting::Double(_) => match c {
            b'"' => WordPiece::Closes,
            b'\\' => quoted_escape(rest),
            b'$' => dollar_piece(rest),
            _ => WordPiece::Letter(c, 0),
        },
    }
}

fn bare_piece(at: usize, c: u8, rest: &[u8]) -> WordPiece
    ensures { result ≡ bare_piece at c rest.now }
{
    if ends_word(c) {
        return WordPiece::Ends;
    }
    match c {
        b'\'' => WordPiece::Opens(Quoting::Single(at)),
        b'"' => WordPiece::Opens(Quoting::Double(at)),
        b'\\' => escaped_piece(rest),
        b'$' => dollar_piece(rest),
        _ => WordPiece::Letter(c, 0),
    }
}

// At a `\` outside of quotes.
fn escaped_piece(rest: &[u8]) -> WordPiece
    ensures { result ≡ escaped_piece rest.now }
{
    match rest.split_first() {
        None => WordPiece::Ends,
        Some((c, _)) => {
            if *c == b'\n' {
                return WordPiece::Drops;
            }
            WordPiece::Escaped(*c)
        }
    }
}

// At a `\` in double quotes.
fn quoted_escape(rest: &[u8]) -> WordPiece
    ensures { result ≡ quoted_escape rest.now }
{
    match rest.split_first() {
        None => WordPiece::Letter(b'\\', 0),
        Some((c, _)) => {
            if is_escapable(*c) {
                return WordPiece::Letter(*c, 1);
            }
            WordPiece::Letter(b'\\', 0)
        }
    }
}

fn is_escapable(c: u8) -> bool
    ensures { result ≡ is_one_of (codes "\"\\$`") c }
{
    c == b'"' || c == b'\\' || c == b'$' || c == b'`'
}

// At a `$`.
fn dollar_piece(rest: &[u8]) -> WordPiece
    ensures { result ≡ dollar_piece rest.now }
{
    if begins_with(b'?', rest) {
        return WordPiece::Status;
    }
    if begins_with(b'{', rest) {
        return braced_piece(passed(rest, 1));
    }
    named_piece(rest)
}

// After a `${`.
fn braced_piece(text: &[u8]) -> WordPiece
    ensures { result ≡ braced_piece text.now }
{
    let n = variable_len(text);
    if n > 0 && begins_with(b'}', passed(text, n)) {
        return WordPiece::Value(1, n, n + 2);
    }
    WordPiece::Refuses
}

fn named_piece(text: &[u8]) -> WordPiece
    ensures { result ≡ named_piece text.now }
{
    let n = variable_len(text);
    if n > 0 {
        return WordPiece::Value(0, n, n);
    }
    WordPiece::Letter(b'$', 0)
}

/// Whether a word ends before this character, outside of quotes.
pub(crate) fn ends_word(c: u8) -> bool
    ensures { result ≡ ends_word c }
{
    c == b' '
        || c == b'\t'
        || c == b'\r'
        || c == b'\n'
        || c == b';'
        || c == b'&'
        || c == b'|'
        || c == b'('
        || c == b')'
        || c == b'<'
        || c == b'>'
        || c == b'`'
}

fn is_in_variable(c: u8) -> bool
    ensures { result ≡ is_in_variable c }
{
    c.is_ascii_alphanumeric() || c == b'_' || c == b'.'
}

/// How many bytes the name of a variable has at the text's front.
pub(crate) fn variable_len(text: &[u8]) -> usize
    ensures len { result ≡ variable_len text.now }
    ensures within { result ≤ length text.now }
    ensures small { result + 2 < 18446744073709551616 }
{
    text.iter().take_while(|c| is_in_variable(**c)).count()
}

pub(crate) fn begins_with(c: u8, text: &[u8]) -> bool
    ensures { result ≡ begins_with c text.now }
{
    match text.split_first() {
        None => false,
        Some((d, _)) => *d == c,
    }
}

/// The text without its first bytes.
pub(crate) fn passed(text: &[u8], n: usize) -> &[u8]
    ensures rest { result.now ≡ drop n text.now }
    ensures shorter { length result.now ≤ length text.now }
{
    if n > text.len() {
        return &[];
    }
    let (_, rest) = text.split_at(n);
    rest
}

/// The first bytes of a text.
pub(crate) fn first_bytes(text: &[u8], n: usize) -> &[u8]
    ensures { result.now ≡ take n text.now }
{
    if n > text.len() {
        return text;
    }
    let (front, _) = text.split_at(n);
    front
}
