ghost use Rattle.std.specs.Prelude.{◌≡◌, not};
ghost use Rattle.std.specs.List.{prefix_len};
ghost use Rattle.std.specs.Option.{option_map};
ghost use Rattle.bb_bls.specs.Entry.{is_blank, pair_of, text_before_blanks, text_behind_blanks};
ghost use Rattle.bb_bls.specs.References.{text_pair};

/// The key and the value of a line that has both.
pub(crate) fn key_and_value(line: &str) -> Option<(&str, &str)>
    ensures { option_map text_pair result ≡ pair_of line.now }
{
    let text = trim_blanks_end(trim_blanks_start(line));
    let (key, rest) = text.split_at(key_len(text));
    let value = trim_blanks_start(rest);
    if value.is_empty() {
        None
    } else {
        Some((key, value))
    }
}

fn key_len(text: &str) -> usize
    ensures { result ≡ prefix_len (λ c. not (is_blank c)) text.now }
{
    text.as_bytes()
        .iter()
        .take_while(|c| !is_blank(**c))
        .count()
}

fn blanks_in_front(text: &str) -> usize
    ensures { result ≡ prefix_len is_blank text.now }
{
    text.as_bytes().iter().take_while(|c| is_blank(**c)).count()
}

fn trim_blanks_start(text: &str) -> &str
    ensures { result.now ≡ text_behind_blanks text.now }
{
    &text[blanks_in_front(text)..]
}

fn trim_blanks_end(text: &str) -> &str
    ensures { result.now ≡ text_before_blanks text.now }
{
    let mut end = text.len();
    while end > 0 && is_blank(text.as_bytes()[end - 1]) {
        end -= 1;
    }
    &text[..end]
}

fn is_blank(c: u8) -> bool
    ensures { result ≡ is_blank c }
{
    c == b' ' || c == b'\t'
}
