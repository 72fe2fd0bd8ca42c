ghost use Rattle.std.specs.Prelude.{◌≡◌, ◌+◌, ◌≤◌, IfOk};
ghost use Rattle.bb_tree.specs.Blob.{header_text, strings_block};
ghost use Rattle.bb_layout.specs.Layout.{fields_of, recorded_of};
ghost use Rattle.bb_dtbrec.specs.LayoutPieces as spec;
ghost use Rattle.bb_dtbrec.specs.LayoutPieces.{front_with, structure_behind};
ghost use Rattle.bb_dtbrec.specs.Names.{record_names};

use crate::nodes::nodes_of;
use crate::piece::Piece;
use crate::token::{add_begin, add_prop, add_token, add_words, begin, end, filling, one_word};
use bb_base::{Bytes, NoMemory};
use bb_layout::{Layout, VarList};
use std::alloc::Global;

/// The pieces of a layout's records after their CRC, up to the strings block.
pub(crate) fn structure(alloc: Global, layout: &Layout) -> Result<Vec<Piece>, NoMemory>
    ensures { IfOk result (λ pieces. pieces.items
        ≡ structure_behind (recorded_of (fields_of layout.now))) }
{
    let mut pieces = state_begun(alloc, layout)?;
    let mut nodes = nodes_of(alloc, &layout.vars)?;
    pieces.append(&mut nodes)?;
    pieces.push(end(alloc)?)?;
    pieces.push(end(alloc)?)?;
    pieces.push(one_word(alloc, 9)?)?;
    Ok(pieces)
}

// The state node without its end and the nodes in it.
fn state_begun(alloc: Global, layout: &Layout) -> Result<Vec<Piece>, NoMemory>
    ensures { IfOk result (λ pieces. pieces.items
        ≡ spec.state_begun (recorded_of (fields_of layout.now))) }
{
    let mut pieces = Vec::new(alloc);
    pieces.push(filling(alloc, 4)?)?;
    pieces.push(begin(alloc, layout.node.as_str())?)?;
    add_prop(alloc, &mut pieces, 9, b"barebox,state\0")?;
    add_prop(alloc, &mut pieces, 20, &layout.magic.to_be_bytes())?;
    Ok(pieces)
}

/// The strings block of the records with these variables.
pub(crate) fn strings(alloc: Global, vars: &VarList) -> Result<Bytes, NoMemory>
    ensures { IfOk result (λ bytes. bytes ≡ strings_block (record_names vars.now)) }
{
    let mut bytes = Bytes::none(alloc);
    bytes.add(b"bb,crc32\0compatible\0magic\0")?;
    if !vars.is_empty() {
        bytes.add(b"value\0")?;
    }
    Ok(bytes)
}

/// The bytes before the CRC, by the lengths of the structure block and the strings block.
pub(crate) fn front(alloc: Global, structure: usize, strings: usize) -> Result<Bytes, NoMemory>
    requires { structure + strings ≤ 0xffffffff }
    ensures { IfOk result (λ bytes. bytes ≡ front_with structure strings) }
{
    let mut bytes = header(alloc, structure, strings)?;
    bytes.add(&[0; 16])?;
    add_begin(&mut bytes, "")?;
    add_token(&mut bytes, 4, 0)?;
    Ok(bytes)
}

// The header of a blob with no reservations and blocks of these lengths.
fn header(alloc: Global, structure: usize, strings: usize) -> Result<Bytes, NoMemory>
    requires { structure + strings ≤ 0xffffffff }
    ensures { IfOk result (λ bytes. bytes ≡ header_text 16 structure strings) }
{
    let strings_at = 56 + structure;
    let total = strings_at + strings;
    let words = [
        0xD00D_FEED,
        total,
        56,
        strings_at,
        40,
        17,
        16,
        0,
        strings,
        structure,
    ];
    let mut bytes = Bytes::none(alloc);
    add_words(&mut bytes, &words)?;
    Ok(bytes)
}
