ghost use Rattle.std.specs.Prelude.{◌≡◌, ◌+◌, ◌-◌, ◌≤◌, ◌++◌, drop, length, reverse, take};
ghost use Rattle.std.specs.Str.{bytes_eq};

/// The first bytes, at most so many, and those after them.
pub(crate) fn cut(bytes: &[u8], most: usize) -> (&[u8], &[u8])
    ensures front { result.0.now ≡ take most bytes.now }
    ensures back { result.1.now ≡ drop most bytes.now }
{
    bytes.split_at(most.min(bytes.len()))
}

/// Whether a part stands at this place of the bytes.
pub(crate) fn stands_at(bytes: &[u8], at: usize, part: &[u8]) -> bool
    requires { at + length part.now ≤ length bytes.now }
    ensures { result ≡ bytes_eq (take (length part.now) (drop at bytes.now)) part.now }
{
    &bytes[at..at + part.len()] == part
}

/// Puts a part at a place.
pub(crate) fn put(bytes: &mut [u8], at: usize, part: &[u8])
    requires { at + length part.now ≤ length bytes.old }
    ensures { bytes.new
        ≡ take at bytes.old ++ (part.now ++ drop (at + length part.now) bytes.old) }
{
    bytes[at..at + part.len()].copy_from_slice(part);
}

/// Puts a part before a place, its last byte first.
pub(crate) fn put_turned(bytes: &mut [u8], end: usize, part: &[u8])
    requires room { length part.now ≤ end }
    requires inside { end ≤ length bytes.old }
    ensures { bytes.new
        ≡ take (end - length part.now) bytes.old ++ (reverse part.now ++ drop end bytes.old) }
{
    turn(part, &mut bytes[end - part.len()..end]);
}

// Copies bytes, the last one first.
fn turn(bytes: &[u8], out: &mut [u8])
    requires { length out.old ≡ length bytes.now }
    ensures { out.new ≡ reverse bytes.now }
{
    out.copy_from_slice(bytes);
    out.reverse();
}
