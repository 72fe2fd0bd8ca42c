ghost use Rattle.std.specs.Prelude.{◌≡◌, ◌≢◌, ◌<◌, ◌≤◌, ◌∷◌, length};
ghost use Rattle.std.specs.Char.{is_ascii_alphabetic, is_ascii_digit};
ghost use Rattle.std.specs.List.{prefix_len};
ghost use Rattle.bb_menu.specs.Ranks.{IsRun, more_tokens, rank_begun, run_length, token_of};
ghost use Rattle.bb_menu.specs.Version.{version_tokens};

/// The kinds of a version's tokens, as they rank.
#[derive(Clone, Copy)]
pub(crate) enum TokenRank {
    Tilde,
    End,
    Hyphen,
    Caret,
    Dot,
    Letters,
    Digits,
}

/// The first token of a text: its rank, the characters of its run, and what stands after it.
pub(crate) fn first_token(text: &[u8]) -> (TokenRank, &[u8], &[u8])
    ensures token { version_tokens text.now
        ≡ token_of result.0 result.1.now ∷ more_tokens result.0 result.2.now }
    ensures run { IsRun result.0 result.1.now }
    ensures shorter { result.0 ≢ TokenRank.End → length result.2.now < length text.now }
{
    let mut rest = text;
    while let Some((first, after)) = rest.split_first() {
        if let Some(rank) = rank_begun(*first) {
            let (run, left) = rest.split_at(run_length(rank, rest));
            return (rank, run, left);
        }
        rest = after;
    }
    (TokenRank::End, rest, rest)
}

// The rank of the token that a character begins, if it begins one.
fn rank_begun(c: u8) -> Option<TokenRank>
    ensures { result ≡ rank_begun c }
{
    match c {
        b'A'..=b'Z' | b'a'..=b'z' => Some(TokenRank::Letters),
        b'0'..=b'9' => Some(TokenRank::Digits),
        b'~' => Some(TokenRank::Tilde),
        b'-' => Some(TokenRank::Hyphen),
        b'^' => Some(TokenRank::Caret),
        b'.' => Some(TokenRank::Dot),
        _ => None,
    }
}

// How many characters in front of a text are a token's of this rank.
fn run_length(rank: TokenRank, text: &[u8]) -> usize
    requires { 0 < length text.now }
    ensures value { result ≡ run_length rank text.now }
    ensures within { result ≤ length text.now }
{
    match rank {
        TokenRank::Letters => letters_in_front(text),
        TokenRank::Digits => digits_in_front(text),
        TokenRank::End => 0,
        _ => 1,
    }
}

fn letters_in_front(text: &[u8]) -> usize
    ensures value { result ≡ prefix_len is_ascii_alphabetic text.now }
    ensures within { result ≤ length text.now }
{
    text.iter().take_while(|c| is_letter(**c)).count()
}

fn digits_in_front(text: &[u8]) -> usize
    ensures value { result ≡ prefix_len is_ascii_digit text.now }
    ensures within { result ≤ length text.now }
{
    text.iter().take_while(|c| is_digit(**c)).count()
}

fn is_letter(c: u8) -> bool
    ensures { result ≡ is_ascii_alphabetic c }
{
    c.is_ascii_alphabetic()
}

fn is_digit(c: u8) -> bool
    ensures { result ≡ is_ascii_digit c }
{
    c.is_ascii_digit()
}
