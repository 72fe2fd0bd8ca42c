ghost use Rattle.std.specs.Prelude.{◌≡◌, ◌++◌, None, Some, Ok, IfErr, OnErr, OnOk};
ghost use Rattle.std.specs.Prelude.{length};
ghost use Rattle.std.specs.Result.{result_map_both};
ghost use Rattle.bb_state.specs.Named.{Refuses, after_set, refusal_for, text_for};

use crate::StateError;
use crate::value::{add_value, var_of};
use bb_base::Bytes;
use bb_layout::Layout;
use bb_vars::Table;

/// Appends the text of the value that the variable of that name has in an area of the layout.
/// NoSuchVariable where there is none, and NoMemory; `out` is then as before.
pub fn get_value(
    layout: &Layout,
    area: &[u8],
    name: &str,
    out: &mut Bytes,
) -> Result<(), StateError>
    requires { length area.now ≡ layout.now.area_len }
    ensures got { OnOk result (result_map_both (λ text. out.old ++ text) (λ e. e)
        (text_for layout.now.vars name.now area.now) ≡ Ok out.new) }
    ensures refused { IfErr result (Refuses (text_for layout.now.vars name.now area.now)) }
    ensures unchanged { OnErr result (out.new ≡ out.old) }
{
    let var = var_of(layout, name)?;
    add_value(area, var, out)?;
    Ok(())
}

/// Whether a text is a value of the variable of that name: the refusals are those of `set_value`.
pub fn check_value(layout: &Layout, name: &str, text: &[u8]) -> Result<(), StateError>
    ensures value { OnOk result (refusal_for layout.now.vars name.now text.now ≡ None) }
    ensures refused { IfErr result (λ e. refusal_for layout.now.vars name.now text.now ≡ Some e) }
{
    let var = var_of(layout, name)?;
    bb_vars::check_value(&var.kind, text)?;
    Ok(())
}

/// Gives the variable of that name the value that a text stands for, in a table of the layout.
/// NoSuchVariable where there is none, and Value where the text is no value of it; the table is
/// then as before.
pub fn set_value(
    layout: &Layout,
    table: &mut Table,
    name: &str,
    text: &[u8],
) -> Result<(), StateError>
    requires { length table.old ≡ layout.now.area_len }
    ensures table { table.new ≡ after_set layout.now.vars name.now text.now table.old }
    ensures value { OnOk result (refusal_for layout.now.vars name.now text.now ≡ None) }
    ensures refused { IfErr result (λ e. refusal_for layout.now.vars name.now text.now ≡ Some e) }
    ensures unchanged { OnErr result (table.new ≡ table.old) }
    ensures same_length { length table.new ≡ length table.old }
{
    let var = var_of(layout, name)?;
    table.put_value(&var.kind, var.at, text)?;
    Ok(())
}
