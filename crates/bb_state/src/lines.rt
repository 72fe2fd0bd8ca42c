ghost use Rattle.std.specs.Prelude.{◌≡◌, ◌++◌, OnOk, length};
ghost use Rattle.std.specs.List.{flat_map};
ghost use Rattle.bb_state.specs.Lines.{dump_line, shell_line, value_line};
ghost use Rattle.bb_state.specs.Named.{var_of};
ghost use Rattle.bb_state.specs.Room.{VarHasRoom};

use crate::shell::{add_shell_name, add_shell_value};
use crate::value::{add_value, var_at};
use bb_base::{Bytes, NoMemory};
use bb_layout::{Layout, Var};
use std::alloc::Global;

/// Appends the line of the variable of that name, and nothing where there is none.
pub fn add_value_line(
    layout: &Layout,
    area: &[u8],
    name: &str,
    out: &mut Bytes,
) -> Result<(), NoMemory>
    requires { length area.now ≡ layout.now.area_len }
    ensures { OnOk result
        (out.new ≡ out.old ++ value_line area.now (var_of layout.now.vars name.now)) }
{
    let Some(place) = layout.find(name) else {
        return Ok(());
    };
    add_value(area, var_at(layout, place), out)?;
    out.add(b"\n")
}

/// Appends a line for each variable.
pub fn add_dump(layout: &Layout, area: &[u8], out: &mut Bytes) -> Result<(), NoMemory>
    requires { length area.now ≡ layout.now.area_len }
    ensures { OnOk result (out.new ≡ out.old ++ flat_map (dump_line area.now) layout.now.vars) }
{
    for place in 0..layout.vars.len() {
        add_dump_line(area, var_at(layout, place), out)?;
    }
    Ok(())
}

/// Appends a line for a shell for each variable.
pub fn add_shell_dump(
    alloc: Global,
    layout: &Layout,
    area: &[u8],
    out: &mut Bytes,
) -> Result<(), NoMemory>
    requires { length area.now ≡ layout.now.area_len }
    ensures { OnOk result (out.new
        ≡ out.old ++ flat_map (shell_line layout.now.name area.now) layout.now.vars) }
{
    for place in 0..layout.vars.len() {
        let var = var_at(layout, place);
        add_shell_line(alloc, layout.name.as_str(), area, var, out)?;
    }
    Ok(())
}

fn add_dump_line(area: &[u8], var: &Var, out: &mut Bytes) -> Result<(), NoMemory>
    requires { VarHasRoom (length area.now) var.now }
    ensures { OnOk result (out.new ≡ out.old ++ dump_line area.now var.now) }
{
    out.add(var.name.as_str().as_bytes())?;
    out.add(b"=")?;
    add_value(area, var, out)?;
    out.add(b"\n")
}

fn add_shell_line(
    alloc: Global,
    name: &str,
    area: &[u8],
    var: &Var,
    out: &mut Bytes,
) -> Result<(), NoMemory>
    requires { VarHasRoom (length area.now) var.now }
    ensures { OnOk result (out.new ≡ out.old ++ shell_line name.now area.now var.now) }
{
    let mut value = Bytes::none(alloc);
    add_value(area, var, &mut value)?;
    add_shell_name(name, out)?;
    out.add(b"_")?;
    add_shell_name(var.name.as_str(), out)?;
    out.add(b"=\"")?;
    add_shell_value(value.as_slice(), out)?;
    out.add(b"\"\n")
}
