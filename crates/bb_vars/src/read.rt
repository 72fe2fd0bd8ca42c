ghost use Rattle.std.specs.Prelude.{◌≡◌, ◌∷◌, [], ◌<◌, ◌≤◌, ◌^◌, length, OnOk, OnErr, IfOk, IfErr};
ghost use Rattle.std.specs.Prelude.{None};
ghost use Rattle.std.specs.Int.{w8};
ghost use Rattle.std.specs.Option.{ok_or};
ghost use Rattle.std.specs.Result.{result_err};
ghost use Rattle.bb_base.specs.Number.{number_of};
ghost use Rattle.bb_vars.specs.Kind.{size_of, HasFewNames};
ghost use Rattle.bb_vars.specs.Names.{is_name_at, place_of_name};
ghost use Rattle.bb_vars.specs.Refusals.{Refuses};
ghost use Rattle.bb_vars.specs.Value.{bytes_of, number_bytes, chars_bytes, with_filling};

use crate::mac::read_mac;
use crate::{Kind, ValueError};
use bb_base::{TextList, read_number};

/// Reads a text as a value of the kind into `out`, which has as many bytes as the kind. Numbers are
/// spelt as `read_number` reads them and stand little endian; an enum's text stands for the first
/// of its names that is the same, of at most 4,294,967,295; a string is filled up with zero bytes.
/// The refusals are those of `ValueError`, and leave `out` as it was.
pub fn read_value(kind: &Kind, text: &[u8], out: &mut [u8]) -> Result<(), ValueError>
    requires sized { length out.old ≡ size_of kind.now }
    requires few_names { HasFewNames kind.now }
    ensures read { OnOk result (bytes_of kind.now text.now ≡ Ok out.new) }
    ensures refused { IfErr result (Refuses (bytes_of kind.now text.now)) }
    ensures unchanged { OnErr result (out.new ≡ out.old) }
{
    match kind {
        Kind::Uint8 => out.copy_from_slice(&[read_uint8(text)?]),
        Kind::Uint32 => out.copy_from_slice(&read_number(text)?.to_le_bytes()),
        Kind::Enum32(names) => out.copy_from_slice(&read_index(names, text)?.to_le_bytes()),
        Kind::Mac => out.copy_from_slice(&read_mac(text).ok_or(ValueError::NotMac)?),
        Kind::Chars(_) => read_chars(text, out)?,
    }
    Ok(())
}

/// Whether a text is a value of the kind: the refusals are those of `read_value`, and nothing is
/// written.
pub fn check_value(kind: &Kind, text: &[u8]) -> Result<(), ValueError>
    requires few_names { HasFewNames kind.now }
    ensures fits { OnOk result (result_err (bytes_of kind.now text.now) ≡ None) }
    ensures refused { IfErr result (Refuses (bytes_of kind.now text.now)) }
{
    match kind {
        Kind::Uint8 => {
            read_uint8(text)?;
        }
        Kind::Uint32 => {
            read_number(text)?;
        }
        Kind::Enum32(names) => {
            read_index(names, text)?;
        }
        Kind::Mac => {
            read_mac(text).ok_or(ValueError::NotMac)?;
        }
        Kind::Chars(size) => check_chars(*size as usize, text)?,
    }
    Ok(())
}

fn read_uint8(text: &[u8]) -> Result<u8, ValueError>
    ensures read { IfOk result (λ n. number_bytes w8 (number_of text.now) ≡ Ok (n ∷ [])) }
    ensures refused { IfErr result (Refuses (number_bytes w8 (number_of text.now))) }
{
    u8::try_from(read_number(text)?).map_err(|_| ValueError::TooLarge)
}

fn read_index(names: &TextList, text: &[u8]) -> Result<u32, ValueError>
    requires { length names.now < 2 ^ 32 }
    ensures { result ≡ ok_or (place_of_name names.now text.now) ValueError.NoSuchName }
{
    for place in 0..names.len() {
        if is_name_at(names, place, text) {
            return Ok(place as u32);
        }
    }
    Err(ValueError::NoSuchName)
}

fn is_name_at(names: &TextList, place: usize, text: &[u8]) -> bool
    ensures { result ≡ is_name_at names.now text.now place }
{
    names
        .get(place)
        .is_some_and(|name| name.as_str().as_bytes() == text)
}

fn read_chars(text: &[u8], out: &mut [u8]) -> Result<(), ValueError>
    ensures read { OnOk result (chars_bytes (length out.old) text.now ≡ Ok out.new) }
    ensures refused { IfErr result (Refuses (chars_bytes (length out.old) text.now)) }
    ensures unchanged { OnErr result (out.new ≡ out.old) }
{
    check_chars(out.len(), text)?;
    out[..text.len()].copy_from_slice(text);
    out[text.len()..].fill(0);
    Ok(())
}

fn check_chars(size: usize, text: &[u8]) -> Result<(), ValueError>
    ensures fits { OnOk result (chars_bytes size text.now ≡ Ok (with_filling size text.now)) }
    ensures inside { OnOk result (length text.now ≤ size) }
    ensures refused { IfErr result (Refuses (chars_bytes size text.now)) }
{
    if text.len() > size {
        return Err(ValueError::TooLong);
    }
    if text.contains(&0) {
        return Err(ValueError::HasZeroByte);
    }
    Ok(())
}
