ghost use Rattle.std.specs.Prelude.{◌≡◌, ◌+◌, ◌≤◌, IfOk, length, reverse};
ghost use Rattle.bb_tree.specs.NodeViews.{prop_pair};
ghost use Rattle.bb_vars.specs.Kind.{size_of};
ghost use Rattle.bb_layout.specs.Record as spec;

use crate::Var;
use bb_base::{Bytes, NoMemory, Text};
use bb_tree::Prop;
use bb_vars::Kind;
use std::alloc::Global;

/// The property of that name and value.
pub(crate) fn prop(alloc: Global, name: &str, value: &[u8]) -> Result<Prop, NoMemory>
    ensures { IfOk result (λ prop. prop_pair prop ≡ (name.now, value.now)) }
{
    let mut bytes = Bytes::none(alloc);
    bytes.add(value)?;
    Ok(Prop {
        name: Text::of(alloc, name)?,
        value: bytes,
    })
}

/// The property `value` of a variable, by the bytes of the area.
pub(crate) fn value_prop(alloc: Global, var: &Var, area: &[u8]) -> Result<Prop, NoMemory>
    requires inside { var.now.at + var.now.size ≤ length area.now }
    requires sized { var.now.size ≡ size_of var.now.kind }
    ensures { IfOk result (λ prop. prop_pair prop ≡ spec.value_prop area.now var.now) }
{
    let at = var.at as usize;
    let bytes = &area[at..at + var.size as usize];
    match var.kind {
        Kind::Uint8 => prop(alloc, "value", &[0, 0, 0, bytes[0]]),
        Kind::Uint32 | Kind::Enum32(_) => prop(alloc, "value", &big_endian(bytes)),
        Kind::Mac | Kind::Chars(_) => prop(alloc, "value", bytes),
    }
}

// The 4 bytes of a number, the other way round.
fn big_endian(bytes: &[u8]) -> [u8; 4]
    requires { length bytes.now ≡ 4 }
    ensures { result ≡ reverse bytes.now }
{
    [bytes[3], bytes[2], bytes[1], bytes[0]]
}
