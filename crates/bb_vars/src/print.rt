ghost use Rattle.std.specs.Prelude.{◌≡◌, ◌==◌, ◌++◌, length, OnOk, OnErr, decimal};
ghost use Rattle.std.specs.Int.{w32, from_le_bytes};
ghost use Rattle.std.specs.List.{before_first, position_or_len};
ghost use Rattle.bb_vars.specs.Kind.{size_of};
ghost use Rattle.bb_vars.specs.Value.{name_or_number, text_of};

use crate::Kind;
use crate::mac::mac_text;
use bb_base::{Bytes, NoMemory, TextList};
use itoa::Buffer;

/// Appends the text of a value, which has as many bytes as the kind: a number in decimal, an enum's
/// name, or its number in decimal where that isn't below the count of names, a MAC address as pairs
/// in lower case joined by `:`, a string up to its first zero byte. Without memory `out` is as
/// before.
pub fn print_value(kind: &Kind, bytes: &[u8], out: &mut Bytes) -> Result<(), NoMemory>
    requires { length bytes.now ≡ size_of kind.now }
    ensures printed { OnOk result (out.new ≡ out.old ++ text_of kind.now bytes.now) }
    ensures unchanged { OnErr result (out.new ≡ out.old) }
{
    match kind {
        Kind::Uint8 => print_number(u32::from(bytes[0]), out),
        Kind::Uint32 => print_number(number(bytes), out),
        Kind::Enum32(names) => print_name(names, number(bytes), out),
        Kind::Mac => out.add(&mac_text(bytes)),
        Kind::Chars(_) => out.add(before_zero(bytes)),
    }
}

fn print_number(value: u32, out: &mut Bytes) -> Result<(), NoMemory>
    ensures printed { OnOk result (out.new ≡ out.old ++ decimal value) }
    ensures unchanged { OnErr result (out.new ≡ out.old) }
{
    let mut buffer = Buffer::new();
    out.add(buffer.format(value).as_bytes())
}

fn print_name(names: &TextList, index: u32, out: &mut Bytes) -> Result<(), NoMemory>
    ensures printed { OnOk result (out.new ≡ out.old ++ name_or_number names.now index) }
    ensures unchanged { OnErr result (out.new ≡ out.old) }
{
    match names.get(index as usize) {
        Some(name) => out.add(name.as_str().as_bytes()),
        None => print_number(index, out),
    }
}

fn number(bytes: &[u8]) -> u32
    requires { length bytes.now ≡ 4 }
    ensures { result ≡ from_le_bytes w32 bytes.now }
{
    u32::from_le_bytes([bytes[0], bytes[1], bytes[2], bytes[3]])
}

fn before_zero(bytes: &[u8]) -> &[u8]
    ensures { result.now ≡ before_first (λ c. c == 0) bytes.now }
{
    &bytes[..zero_place(bytes)]
}

fn zero_place(bytes: &[u8]) -> usize
    ensures { result ≡ position_or_len (λ c. c == 0) bytes.now }
{
    bytes.iter().take_while(|c| **c != 0).count()
}
