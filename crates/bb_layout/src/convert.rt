ghost use Rattle.std.specs.Prelude.{◌≡◌, ◌≤◌, ◌+◌, All, length};
ghost use Rattle.bb_layout.specs.Convert.{convert_of, kept_or_default, resized};

use crate::defaults::put_default;
use crate::{Var, VarList};

#[tactic(auto, using(crate::proofs::Converting::convert_more, crate::proofs::Filling::room_at))]
/// Fills an area, in which each default has room at its place, with what a stored area of any
/// length stands for: its bytes, zero bytes after them, and over both the defaults of the
/// variables that don't end within it.
pub(crate) fn convert_area(vars: &VarList, stored: &[u8], out: &mut [u8])
    requires { All (λ v. v.at + length v.default ≤ length out.old) vars.now }
    ensures { out.new ≡ convert_of (length out.old) vars.now stored.now }
{
    lay_stored(stored, out);
    for place in 0..vars.len() {
        let Some(var) = vars.get(place) else {
            unreachable!()
        };
        put_unstored(var, stored.len(), out);
    }
}

#[tactic(auto, using(crate::proofs::Converting::longer_resized, crate::proofs::Converting::shorter_resized))]
// The first bytes of the stored area, and zero bytes after them.
fn lay_stored(stored: &[u8], out: &mut [u8])
    ensures laid { out.new ≡ resized (length out.old) stored.now }
    ensures same_length { length out.new ≡ length out.old }
{
    if stored.len() < out.len() {
        let (front, rest) = out.split_at_mut(stored.len());
        front.copy_from_slice(stored);
        rest.fill(0);
    } else {
        out.copy_from_slice(&stored[..out.len()]);
    }
}

#[tactic(auto, using(crate::proofs::Converting::is_default, crate::proofs::Converting::is_kept))]
// A variable that doesn't end within so many stored bytes gets its default.
fn put_unstored(var: &Var, stored_len: usize, out: &mut [u8])
    requires { var.now.at + length var.now.default ≤ length out.old }
    ensures put { out.new ≡ kept_or_default stored_len out.old var.now }
    ensures same_length { length out.new ≡ length out.old }
{
    if stored_len < var.at as usize + var.size as usize {
        put_default(var, out);
    }
}
