ghost use Rattle.std.specs.Prelude.{◌≡◌};
ghost use Rattle.bb_interpreter.specs.Means.{built_in_of};

/// A command of the language's own.
#[derive(Clone, Copy, Debug, PartialEq, Eq)]
pub enum BuiltIn {
    Echo,
    True,
    False,
    Test,
    /// `[`
    Brackets,
}

/// The command of this name.
pub(crate) fn built_in_of(name: &[u8]) -> Option<BuiltIn>
    ensures { result ≡ built_in_of name.now }
{
    if name == b"echo".as_slice() {
        Some(BuiltIn::Echo)
    } else if name == b"true".as_slice() {
        Some(BuiltIn::True)
    } else if name == b"false".as_slice() {
        Some(BuiltIn::False)
    } else if name == b"test".as_slice() {
        Some(BuiltIn::Test)
    } else if name == b"[".as_slice() {
        Some(BuiltIn::Brackets)
    } else {
        None
    }
}
