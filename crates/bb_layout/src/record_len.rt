ghost use Rattle.std.specs.Prelude.{◌≡◌, ◌≤◌, All, IfOk};
ghost use Rattle.bb_tree.specs.Blob.{length_in_64_bits};
ghost use Rattle.bb_layout.specs.Formats as spec;
ghost use Rattle.bb_layout.specs.Ranges.{end_of};
ghost use Rattle.bb_layout.specs.Variables.{IsWellFormed};

use crate::record_tree::record_tree;
use crate::state_props::Props;
use crate::{FormatKind, VarList};
use bb_base::{NoMemory, Text};
use bb_raw::HEADER_LEN;
use bb_tree::blob_length;
use std::alloc::Global;

const HMAC_LEN: u64 = 32;

/// How many bytes a record of these variables has, or 2^64 - 1 where it has more.
pub(crate) fn record_len(
    alloc: Global,
    props: Props,
    node: &Text,
    vars: &VarList,
    area_len: u32,
) -> Result<u64, NoMemory>
    requires formed { All IsWellFormed vars.now }
    requires inside { All (λ v. end_of v ≤ area_len) vars.now }
    ensures { IfOk result (λ len. len ≡ length_in_64_bits (spec.record_len props.format
        (record { node = node.now; magic = props.magic; vars = vars.now }) area_len)) }
{
    match props.format {
        FormatKind::Raw => Ok(raw_len(area_len)),
        FormatKind::RawHmac => Ok(raw_len(area_len) + HMAC_LEN),
        FormatKind::Dtb => blob_len(alloc, node, props.magic, vars, area_len),
    }
}

/// How many bytes a raw record without a key has.
pub(crate) fn raw_len(area_len: u32) -> u64
    ensures { result ≡ spec.raw_len area_len }
{
    HEADER_LEN as u64 + u64::from(area_len)
}

// How many bytes a record that is a blob has, whatever the area is.
fn blob_len(
    alloc: Global,
    node: &Text,
    magic: u32,
    vars: &VarList,
    area_len: u32,
) -> Result<u64, NoMemory>
    requires formed { All IsWellFormed vars.now }
    requires inside { All (λ v. end_of v ≤ area_len) vars.now }
    ensures { IfOk result (λ len. len ≡ length_in_64_bits (spec.blob_len
        (record { node = node.now; magic = magic; vars = vars.now }) area_len)) }
{
    let area = vec![in alloc; 0u8; area_len as usize]?;
    let tree = record_tree(alloc, node, magic, vars, area.as_slice())?;
    Ok(blob_length(&tree))
}
