ghost use Rattle.std.specs.Prelude.{◌≡◌, ◌++◌, OnOk};
ghost use Rattle.bb_state.specs.Lines.{shell_escape, shell_name, shell_value};

use bb_base::{Bytes, NoMemory};

/// Appends a name as a shell takes it, with `_` for each `.`.
pub(crate) fn add_shell_name(name: &str, out: &mut Bytes) -> Result<(), NoMemory>
    ensures { OnOk result (out.new ≡ out.old ++ shell_name name.now) }
{
    for c in name.as_bytes() {
        let letter = if *c == b'.' { b'_' } else { *c };
        out.add(&[letter])?;
    }
    Ok(())
}

/// Appends a value as it stands between two `"` of a shell.
pub(crate) fn add_shell_value(value: &[u8], out: &mut Bytes) -> Result<(), NoMemory>
    ensures { OnOk result (out.new ≡ out.old ++ shell_value value.now) }
{
    for c in value {
        add_escaped(*c, out)?;
    }
    Ok(())
}

fn add_escaped(c: u8, out: &mut Bytes) -> Result<(), NoMemory>
    ensures { OnOk result (out.new ≡ out.old ++ shell_escape c) }
{
    match c {
        b'\\' | b'"' | b'$' | b'`' => out.add(&[b'\\', c]),
        _ => out.add(&[c]),
    }
}
