ghost use Rattle.std.specs.Prelude.{◌≡◌, IfOk, OnErr, OnOk, map, not};
ghost use Rattle.std.specs.List.{prefix_len};
ghost use Rattle.std.specs.Str.{bytes_eq};
ghost use Rattle.bb_interpreter.specs.Variables.{own_set, own_value, variable_pair};

use bb_base::{Bytes, NoMemory};
use std::alloc::Global;

/// A variable of a script's own.
#[derive(Debug, Drop)]
pub struct ScriptVariable {
    pub name: Bytes,
    pub value: Bytes,
}

/// The value of the variable of this name, empty where it isn't set.
#[tactic(auto, using(crate::proofs::VariableLemmas::value_here, crate::proofs::VariableLemmas::no_value))]
pub(crate) fn own_value<'a>(variables: &'a [ScriptVariable], name: &[u8]) -> &'a [u8]
    ensures { result.now ≡ own_value (map variable_pair variables.now) name.now }
{
    let place = place_of(variables, name);
    if place < variables.len() {
        return variables[place].value.as_slice();
    }
    &[]
}

/// Sets the variable of this name.
#[tactic(auto, using(crate::proofs::VariableLemmas::set_here, crate::proofs::VariableLemmas::set_new))]
pub(crate) fn set_own(
    alloc: Global,
    variables: &mut Vec<ScriptVariable>,
    name: &[u8],
    value: &[u8],
) -> Result<(), NoMemory>
    ensures ok { OnOk result (map variable_pair variables.new.items
        ≡ own_set (map variable_pair variables.old.items) name.now value.now) }
    ensures err { OnErr result (variables.new.items ≡ variables.old.items) }
{
    let value = copy_of(alloc, value)?;
    let place = place_of(variables.as_slice(), name);
    if place < variables.len() {
        variables[place].value = value;
        return Ok(());
    }
    let name = copy_of(alloc, name)?;
    variables.push(ScriptVariable { name, value })?;
    Ok(())
}

fn copy_of(alloc: Global, bytes: &[u8]) -> Result<Bytes, NoMemory>
    ensures { IfOk result (λ copy. copy ≡ bytes.now) }
{
    let mut copy = Bytes::none(alloc);
    copy.add(bytes)?;
    Ok(copy)
}

// Where the variable of this name stands, or how many there are.
fn place_of(variables: &[ScriptVariable], name: &[u8]) -> usize
    ensures { result ≡ prefix_len (λ v. not (bytes_eq v.name name.now)) variables.now }
{
    variables
        .iter()
        .take_while(|v| v.name.as_slice() != name)
        .count()
}
