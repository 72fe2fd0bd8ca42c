ghost use Rattle.std.specs.Prelude.{◌≡◌};
ghost use Rattle.bb_tree.specs.Phandle as spec;

/// The phandle that a property's value gives: 4 bytes, big-endian, neither 0 nor 0xFFFFFFFF.
pub(crate) fn phandle_in(value: &[u8]) -> Option<u32>
    ensures { result ≡ spec.phandle_in value.now }
{
    let [a, b, c, d] = value else {
        return None;
    };
    let phandle = u32::from_be_bytes([*a, *b, *c, *d]);
    if phandle == 0 || phandle == u32::MAX {
        return None;
    }
    Some(phandle)
}
