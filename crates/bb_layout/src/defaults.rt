ghost use Rattle.std.specs.Prelude.{◌≡◌, ◌≤◌, ◌+◌, All, length};
ghost use Rattle.bb_layout.specs.Defaults.{defaults_of};
ghost use Rattle.bb_vars.specs.Table.{table_with};

use crate::{Var, VarList};

/// Fills an area, in which each default has room at its place: zero bytes, and over them the
/// defaults.
pub(crate) fn fill_defaults(vars: &VarList, out: &mut [u8])
    requires { All (λ v. v.at + length v.default ≤ length out.old) vars.now }
    ensures { out.new ≡ defaults_of (length out.old) vars.now }
{
    out.fill(0);
    for var in vars.as_slice() {
        put_default(var, out);
    }
}

/// Writes a variable's default in its place.
pub(crate) fn put_default(var: &Var, out: &mut [u8])
    requires { var.now.at + length var.now.default ≤ length out.old }
    ensures put { out.new ≡ table_with out.old var.now.at var.now.default }
    ensures same_length { length out.new ≡ length out.old }
{
    let at = var.at as usize;
    let bytes = var.default.as_slice();
    out[at..at + bytes.len()].copy_from_slice(bytes);
}
