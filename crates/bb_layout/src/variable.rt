ghost use Rattle.std.specs.Prelude.{◌≡◌, ◌<◌, ◌≤◌, IfOk, IfErr, OnOk, length, option_map};
ghost use Rattle.std.specs.Prelude.{string_bytes};
ghost use Rattle.std.specs.Int.{w8, w32, to_le_bytes};
ghost use Rattle.std.specs.Option.{option_copied, ForSome};
ghost use Rattle.bb_tree.specs.NodeViews.{branch_of};
ghost use Rattle.bb_layout.specs.Variables as spec;
ghost use Rattle.bb_layout.specs.Walk.{dotted_more};
ghost use Rattle.bb_layout.specs.Refusals.{Refuses};

use crate::fields::{base_name, cell, cell_below, string, strings, two_cells};
use crate::var_type::VarType;
use crate::{LayoutError, Var};
use bb_base::{Bytes, NoMemory, Text, TextList};
use bb_tree::Node;
use bb_vars::Kind;
use std::alloc::Global;

/// The variable of a node, to which the full names of `path` lead.
pub(crate) fn variable(alloc: Global, path: TextList, node: &Node) -> Result<Var, LayoutError>
    ensures ok { IfOk result (λ var. spec.variable_of path (branch_of node.now) ≡ Ok var) }
    ensures refused { IfErr result (Refuses (spec.variable_of path (branch_of node.now))) }
{
    let var_type = type_in(node.prop("type"))?;
    let (at, size) = range_in(alloc, var_type, node.prop("reg"))?;
    let kind = kind_in(alloc, var_type, size, node.prop("names"))?;
    let default = default_of(alloc, &kind, node.prop("default"))?;
    let name = dotted_name(alloc, &path)?;
    Ok(Var {
        name,
        path,
        at,
        size,
        kind,
        default,
    })
}

fn type_in(value: Option<&[u8]>) -> Result<VarType, LayoutError>
    ensures { result ≡ spec.type_of (option_copied value.entry) }
{
    let Some(value) = value else {
        return Err(LayoutError::BadType);
    };
    let Some(name) = string(value) else {
        return Err(LayoutError::BadType);
    };
    VarType::of_name(name).ok_or(LayoutError::BadType)
}

fn range_in(
    alloc: Global,
    var_type: VarType,
    value: Option<&[u8]>,
) -> Result<(u32, u32), LayoutError>
    ensures ok { IfOk result (λ range.
        spec.range_in_area var_type (option_copied value.entry) ≡ Ok range) }
    ensures refused { IfErr result
        (Refuses (spec.range_in_area var_type (option_copied value.entry))) }
{
    let Some(value) = value else {
        return Err(LayoutError::missing(alloc, "reg"));
    };
    let Some((at, size)) = two_cells(value) else {
        return Err(LayoutError::BadReg);
    };
    if !var_type.may_have_size(size) || at.checked_add(size).is_none() {
        return Err(LayoutError::BadReg);
    }
    Ok((at, size))
}

fn kind_in(
    alloc: Global,
    var_type: VarType,
    size: u32,
    names: Option<&[u8]>,
) -> Result<Kind, LayoutError>
    ensures ok { IfOk result (λ kind.
        spec.kind_of var_type size (option_copied names.entry) ≡ Ok kind) }
    ensures refused { IfErr result
        (Refuses (spec.kind_of var_type size (option_copied names.entry))) }
{
    match var_type {
        VarType::Uint8 => Ok(Kind::Uint8),
        VarType::Uint32 => Ok(Kind::Uint32),
        VarType::Enum32 => Ok(Kind::Enum32(names_in(alloc, names)?)),
        VarType::Mac => Ok(Kind::Mac),
        VarType::Chars => Ok(Kind::Chars(size)),
    }
}

fn names_in(alloc: Global, value: Option<&[u8]>) -> Result<TextList, LayoutError>
    ensures ok { IfOk result (λ names. spec.names_of (option_copied value.entry) ≡ Ok names) }
    ensures refused { IfErr result (Refuses (spec.names_of (option_copied value.entry))) }
{
    let Some(value) = value else {
        return Err(LayoutError::missing(alloc, "names"));
    };
    let Some(names) = strings(alloc, value)? else {
        return Err(LayoutError::bad_prop(alloc, "names"));
    };
    if names.len() > 4294967295 {
        return Err(LayoutError::bad_prop(alloc, "names"));
    }
    Ok(names)
}

fn default_of(alloc: Global, kind: &Kind, value: Option<&[u8]>) -> Result<Bytes, LayoutError>
    ensures ok { IfOk result (λ bytes.
        spec.default_of kind.now (option_copied value.entry) ≡ Ok bytes) }
    ensures refused { IfErr result
        (Refuses (spec.default_of kind.now (option_copied value.entry))) }
{
    let Some(value) = value else {
        return Ok(bytes_of_size(alloc, &[], kind.size())?);
    };
    let Some(bytes) = default_in(alloc, kind, value)? else {
        return Err(LayoutError::bad_prop(alloc, "default"));
    };
    Ok(bytes)
}

fn default_in(alloc: Global, kind: &Kind, value: &[u8]) -> Result<Option<Bytes>, NoMemory>
    ensures { IfOk result (λ bytes. bytes ≡ spec.default_in kind.now value.now) }
{
    match kind {
        Kind::Uint8 => byte_default(alloc, cell_below(value, 256)),
        Kind::Uint32 => number_default(alloc, cell(value)),
        Kind::Enum32(names) => number_default(alloc, cell_below(value, names.len())),
        Kind::Mac => mac_default(alloc, value),
        Kind::Chars(size) => chars_default(alloc, *size, value),
    }
}

fn byte_default(alloc: Global, number: Option<u32>) -> Result<Option<Bytes>, NoMemory>
    requires { ForSome number (λ n. n < 256) }
    ensures { IfOk result (λ bytes. bytes ≡ option_map (to_le_bytes w8) number) }
{
    let Some(number) = number else {
        return Ok(None);
    };
    Ok(Some(bytes_of_size(alloc, &[number as u8], 1)?))
}

fn number_default(alloc: Global, number: Option<u32>) -> Result<Option<Bytes>, NoMemory>
    ensures { IfOk result (λ bytes. bytes ≡ option_map (to_le_bytes w32) number) }
{
    let Some(number) = number else {
        return Ok(None);
    };
    Ok(Some(bytes_of_size(alloc, &number.to_le_bytes(), 4)?))
}

fn mac_default(alloc: Global, value: &[u8]) -> Result<Option<Bytes>, NoMemory>
    ensures { IfOk result (λ bytes. bytes ≡ spec.default_in Kind.Mac value.now) }
{
    if value.len() != 6 {
        return Ok(None);
    }
    Ok(Some(bytes_of_size(alloc, value, 6)?))
}

fn chars_default(alloc: Global, size: u32, value: &[u8]) -> Result<Option<Bytes>, NoMemory>
    ensures { IfOk result (λ bytes. bytes ≡ spec.default_in (Kind.Chars size) value.now) }
{
    let Some(chars) = string(value) else {
        return Ok(None);
    };
    if chars.len() > size as usize {
        return Ok(None);
    }
    Ok(Some(bytes_of_size(alloc, chars, size)?))
}

// The bytes, filled up with zero bytes.
fn bytes_of_size(alloc: Global, bytes: &[u8], size: u32) -> Result<Bytes, NoMemory>
    requires { length bytes.now ≤ size }
    ensures { IfOk result (λ full. full ≡ spec.bytes_of_size size bytes.now) }
{
    let zeros = vec![in alloc; 0u8; size as usize - bytes.len()]?;
    let mut full = Bytes::none(alloc);
    full.add(bytes)?;
    full.add(zeros.as_slice())?;
    Ok(full)
}

// The names up to their `@`, joined by `.`.
fn dotted_name(alloc: Global, path: &TextList) -> Result<Text, NoMemory>
    ensures { IfOk result (λ name. name ≡ spec.dotted_name path.now) }
{
    let mut name = String::new(alloc);
    let parts = path.as_slice();
    for (i, part) in parts.iter().enumerate() {
        add_name(&mut name, i == 0, base_name(part.as_str()))?;
    }
    Text::of(alloc, name.as_str())
}

// Adds a name, after a `.` unless it is the first.
fn add_name(names: &mut String, is_first: bool, name: &str) -> Result<(), NoMemory>
    ensures { OnOk result
        (string_bytes names.new ≡ dotted_more is_first (string_bytes names.old) name.now) }
{
    if !is_first {
        names.push('.')?;
    }
    names.push_str(name)?;
    Ok(())
}
