ghost use Rattle.std.specs.Prelude.{◌≡◌, ◌<◌, false, length};
ghost use Rattle.std.specs.Fmt.{digit_glyph};
ghost use Rattle.bb_vars.specs.Mac.{byte_of_pair, has_colons, mac_of, mac_text};

/// Reads six pairs of hexadecimal digits joined by `:`.
pub(crate) fn read_mac(text: &[u8]) -> Option<[u8; 6]>
    ensures { result ≡ mac_of text.now }
{
    if !has_colons(text) {
        return None;
    }
    Some([
        pair(text[0], text[1])?,
        pair(text[3], text[4])?,
        pair(text[6], text[7])?,
        pair(text[9], text[10])?,
        pair(text[12], text[13])?,
        pair(text[15], text[16])?,
    ])
}

fn has_colons(text: &[u8]) -> bool
    ensures { result ≡ has_colons text.now }
{
    text.len() == 17
        && text[2] == b':'
        && text[5] == b':'
        && text[8] == b':'
        && text[11] == b':'
        && text[14] == b':'
}

#[tactic(auto, unfolding(crate::specs::Mac::byte_of_pair))]
fn pair(high: u8, low: u8) -> Option<u8>
    ensures { result ≡ byte_of_pair high low }
{
    let high = char::from(high).to_digit(16)?;
    let low = char::from(low).to_digit(16)?;
    u8::try_from(16 * high + low).ok()
}

/// The text of a MAC address: pairs in lower case joined by `:`.
pub(crate) fn mac_text(bytes: &[u8]) -> [u8; 17]
    requires { length bytes.now ≡ 6 }
    ensures { result ≡ mac_text bytes.now }
{
    let mut text = [b':'; 17];
    for (i, byte) in bytes.iter().enumerate() {
        text[3 * i] = digit(*byte / 16);
        text[3 * i + 1] = digit(*byte % 16);
    }
    text
}

fn digit(value: u8) -> u8
    requires { value < 16 }
    ensures { result ≡ digit_glyph false value }
{
    b"0123456789abcdef"[value as usize]
}
