ghost use Rattle.std.specs.Prelude.{◌≡◌};

/// The type of a variable, as its node's property `type` names it (barebox User Manual, State
/// Framework).
#[derive(Clone, Copy, Debug, PartialEq, Eq)]
pub(crate) enum VarType {
    Uint8,
    Uint32,
    Enum32,
    Mac,
    /// `string`
    Chars,
}

impl VarType {
    ghost use Rattle.bb_layout.specs.VarType.{type_named, may_have_size};

    /// The type of that name.
    pub(crate) fn of_name(name: &[u8]) -> Option<VarType>
        ensures { result ≡ type_named name.now }
    {
        if name == b"uint8".as_slice() {
            Some(VarType::Uint8)
        } else if name == b"uint32".as_slice() {
            Some(VarType::Uint32)
        } else if name == b"enum32".as_slice() {
            Some(VarType::Enum32)
        } else if name == b"mac".as_slice() {
            Some(VarType::Mac)
        } else if name == b"string".as_slice() {
            Some(VarType::Chars)
        } else {
            None
        }
    }

    /// Whether a variable of the type may have that many bytes.
    pub(crate) fn may_have_size(self, size: u32) -> bool
        ensures { result ≡ may_have_size self size }
    {
        match self {
            VarType::Uint8 => size == 1,
            VarType::Uint32 | VarType::Enum32 => size == 4,
            VarType::Mac => size == 6,
            VarType::Chars => 1 <= size && size <= 1024,
        }
    }
}
