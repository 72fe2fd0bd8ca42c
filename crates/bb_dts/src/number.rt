ghost use Rattle.std.specs.Prelude.{◌≡◌, ◌≤◌, ◌*◌, ◌+◌, not, length, option_and_then};
ghost use Rattle.std.specs.List.{list_any, prefix_len};
ghost use Rattle.std.specs.Str.{bytes_eq};
ghost use Rattle.bb_dts.specs.Numbers.{number_value, value_in_radix, radix_value, is_ending_letter};
ghost use Rattle.bb_dts.specs.Numbers.{in_64_bits, fits_64, endings};

/// Why a word gives no number of 64 bits.
#[derive(Clone, Copy, Debug, PartialEq, Eq)]
pub(crate) enum NumberFault {
    Malformed,
    TooLarge,
}

/// The number that the word spells: decimal, octal with a leading 0 or hexadecimal with `0x`, and
/// then `U`, `L`, `UL`, `LL`, `ULL` or nothing.
pub(crate) fn read_number(word: &[u8]) -> Result<u64, NumberFault>
    ensures { result ≡ in_64_bits (number_value word.now) }
{
    let (digits, ending) = word.split_at(digits_len(word));
    if !is_ending(ending) {
        return Err(NumberFault::Malformed);
    }
    read_in_radix(digits)
}

fn digits_len(word: &[u8]) -> usize
    ensures value { result ≡ prefix_len (λ c. not (is_ending_letter c)) word.now }
    ensures within { result ≤ length word.now }
{
    word.iter()
        .take_while(|c| !matches!(**c, b'U' | b'L'))
        .count()
}

fn read_in_radix(digits: &[u8]) -> Result<u64, NumberFault>
    ensures { result ≡ in_64_bits (radix_value digits.now) }
{
    if digits.starts_with(b"0x") {
        read_digits(16, &digits[2..])
    } else if digits.starts_with(b"0") {
        read_digits(8, digits)
    } else {
        read_digits(10, digits)
    }
}

fn is_ending(word: &[u8]) -> bool
    ensures { result ≡ list_any (bytes_eq word.now) endings }
{
    matches!(word, b"" | b"U" | b"L" | b"UL" | b"LL" | b"ULL")
}

/// The number that the digits write in this radix, which must be from 2 to 36.
pub(crate) fn read_digits(radix: u32, digits: &[u8]) -> Result<u64, NumberFault>
    requires few { radix ≤ 36 }
    requires some { 2 ≤ radix }
    ensures { result ≡ in_64_bits (value_in_radix radix digits.now) }
{
    if digits.is_empty() {
        return Err(NumberFault::Malformed);
    }
    let mut value = Some(0u64);
    for c in digits {
        let Some(digit) = char::from(*c).to_digit(radix) else {
            return Err(NumberFault::Malformed);
        };
        value = with_digit(value, u64::from(radix), u64::from(digit));
    }
    value.ok_or(NumberFault::TooLarge)
}

// A number with one digit more, where it still has 64 bits.
fn with_digit(value: Option<u64>, radix: u64, digit: u64) -> Option<u64>
    ensures { result ≡ option_and_then (λ v. fits_64 (v * radix + digit)) value }
{
    value?.checked_mul(radix)?.checked_add(digit)
}
