ghost use Rattle.std.specs.Prelude.{◌≡◌, ◌<◌, ◌+◌, ◌++◌, OnOk, OnErr, IfOk, length};
ghost use Rattle.bb_tree.specs.Blob.{devicetree_of, blob_text, names_used, offset_of};
ghost use Rattle.bb_tree.specs.Blob.{structure_block, reservation_list, header_text, double_word};
ghost use Rattle.bb_tree.specs.NodeViews.{branch_of};

use crate::names::Names;
use crate::text::{add_double_word, add_word, add_words};
use crate::write_node::add_node;
use bb_base::NoMemory;
use bb_tree::{Node, PairList, Tree};
use std::alloc::Global;

/// Writes the blob of the tree, version 17, into `out`, which has its length, `blob_length` of the
/// tree. After `NoMemory` `out` is as before.
pub fn write_blob(alloc: Global, tree: &Tree, out: &mut [u8]) -> Result<(), NoMemory>
    requires fits { length (blob_text (devicetree_of tree.now)) < 4294967296 }
    requires room { length out.old ≡ length (blob_text (devicetree_of tree.now)) }
    ensures ok { OnOk result (out.new ≡ blob_text (devicetree_of tree.now)) }
    ensures err { OnErr result (out.new ≡ out.old) }
{
    let blob = blob_bytes(alloc, tree)?;
    out.copy_from_slice(blob.as_slice());
    Ok(())
}

#[tactic(auto, unfolding(bb_tree::specs::Blob::blob_text))]
fn blob_bytes(alloc: Global, tree: &Tree) -> Result<Vec<u8>, NoMemory>
    requires { length (blob_text (devicetree_of tree.now)) < 4294967296 }
    ensures { IfOk result (λ bytes. bytes.items ≡ blob_text (devicetree_of tree.now)) }
{
    let names = names_of(alloc, &tree.root)?;
    let reservations = reservation_bytes(alloc, &tree.reserved)?;
    let structure = structure_bytes(alloc, &names, &tree.root)?;
    let mut strings = Vec::new(alloc);
    names.write(&mut strings)?;
    let mut blob = header_bytes(alloc, reservations.len(), structure.len(), strings.len())?;
    blob.extend_from_slice(reservations.as_slice())?;
    blob.extend_from_slice(structure.as_slice())?;
    blob.extend_from_slice(strings.as_slice())?;
    Ok(blob)
}

fn names_of(alloc: Global, root: &Node) -> Result<Names, NoMemory>
    ensures { IfOk result (λ names. names ≡ names_used (branch_of root.now)) }
{
    let mut names = Names::none(alloc);
    names.add_node(root)?;
    Ok(names)
}

fn reservation_bytes(alloc: Global, pairs: &PairList) -> Result<Vec<u8>, NoMemory>
    ensures { IfOk result (λ bytes. bytes.items ≡ reservation_list pairs.now) }
{
    let mut bytes = Vec::new(alloc);
    for pair in pairs.as_slice() {
        add_pair(&mut bytes, pair.0, pair.1)?;
    }
    add_pair(&mut bytes, 0, 0)?;
    Ok(bytes)
}

fn add_pair(bytes: &mut Vec<u8>, address: u64, len: u64) -> Result<(), NoMemory>
    ensures { OnOk result (bytes.new.items
        ≡ bytes.old.items ++ (double_word address ++ double_word len)) }
{
    add_double_word(bytes, address)?;
    add_double_word(bytes, len)
}

fn structure_bytes(alloc: Global, names: &Names, root: &Node) -> Result<Vec<u8>, NoMemory>
    ensures { IfOk result (λ bytes. bytes.items
        ≡ structure_block (offset_of names.now) (branch_of root.now)) }
{
    let mut bytes = Vec::new(alloc);
    add_node(&mut bytes, names, root)?;
    add_word(&mut bytes, 9)?;
    Ok(bytes)
}

fn header_bytes(
    alloc: Global,
    reservations: usize,
    structure: usize,
    strings: usize,
) -> Result<Vec<u8>, NoMemory>
    requires { reservations + structure + strings < 4294967296 }
    ensures { IfOk result (λ bytes. bytes.items ≡ header_text reservations structure strings) }
{
    let struct_at = 40 + reservations;
    let strings_at = struct_at + structure;
    let total = strings_at + strings;
    let words = [
        0xD00D_FEED,
        total,
        struct_at,
        strings_at,
        40,
        17,
        16,
        0,
        strings,
        structure,
    ];
    let mut bytes = Vec::new(alloc);
    add_words(&mut bytes, &words)?;
    Ok(bytes)
}
