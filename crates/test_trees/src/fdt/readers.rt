// The reader of sources and the reader of blobs give one tree of one text.
use super::same::is_same_tree;
use super::{by_hand, compiled, example, printed};
use bb_dts::read_source;
use bb_fdt::{read_blob, write_blob};
use bb_tree::{Tree, blob_length};
use std::alloc::Global;
use std::process::Abort;
use std::test::Fail;

// The tree of a short source.
fn source_tree(alloc: Global, text: &[u8]) -> Result<Tree, Fail> {
    if text.len() > 4096 {
        return Err(Fail::from("a long source"));
    }
    Ok(read_source(alloc, text)?)
}

// The blob that the writer makes of a tree.
fn written(alloc: Global, tree: &Tree) -> Result<Vec<u8>, Fail> {
    let len = blob_length(tree);
    if len > 4096 {
        return Err(Fail::from("a long blob"));
    }
    let mut blob = vec![in alloc; 0u8; len as usize]?;
    write_blob(alloc, tree, blob.as_mut_slice())?;
    Ok(blob)
}

// The readers give one tree of a text, of its blob and of the blob that the writer makes of it.
// Gives the last one.
fn agree(rt: &impl Abort, alloc: Global, text: &[u8], blob: &[u8]) -> Result<Vec<u8>, Fail> {
    let tree = source_tree(alloc, text)?;
    let compiled = read_blob(alloc, blob)?;
    assert!(rt; is_same_tree(&tree, &compiled));
    let bytes = written(alloc, &tree)?;
    let again = read_blob(alloc, bytes.as_slice())?;
    assert!(rt; is_same_tree(&tree, &again));
    Ok(bytes)
}

#[test]
fn reservations_escapes_bytes_and_phandles(rt: HostRuntime) -> Result<(), Fail> {
    let bytes = agree(&rt, rt.alloc(), printed::board(), compiled::board())?;
    assert_eq!(rt; bytes.as_slice(), compiled::board());
    Ok(())
}

#[test]
fn a_phandle_and_its_reference(rt: HostRuntime) -> Result<(), Fail> {
    let bytes = agree(&rt, rt.alloc(), printed::flash(), compiled::flash())?;
    assert_eq!(rt; bytes.as_slice(), compiled::flash());
    Ok(())
}

#[test]
fn nodes_inside_nodes(rt: HostRuntime) -> Result<(), Fail> {
    let bytes = agree(&rt, rt.alloc(), printed::deep(), compiled::deep())?;
    assert_eq!(rt; bytes.as_slice(), compiled::deep());
    Ok(())
}

// In what dtc compiles the name `type` is the end of `backend-type`. The writer gives it bytes of
// its own, 5 more.
#[test]
fn the_example_board(rt: HostRuntime) -> Result<(), Fail> {
    let text = example::text(rt.alloc())?;
    let bytes = agree(&rt, rt.alloc(), text.as_slice(), compiled::example())?;
    assert_eq!(rt; bytes.len(), compiled::example().len() + 5);
    Ok(())
}

#[test]
fn labels_references_and_comments(rt: HostRuntime) -> Result<(), Fail> {
    let text = by_hand::text(rt.alloc())?;
    let bytes = agree(&rt, rt.alloc(), text.as_slice(), compiled::example())?;
    assert_eq!(rt; bytes.len(), compiled::example().len() + 5);
    Ok(())
}

// The example board's tree is no other text's.
#[test]
fn other_texts_have_other_trees(rt: HostRuntime) -> Result<(), Fail> {
    let text = example::text(rt.alloc())?;
    let board = source_tree(rt.alloc(), text.as_slice())?;
    for blob in [compiled::board(), compiled::flash(), compiled::deep()] {
        let other = read_blob(rt.alloc(), blob)?;
        assert!(rt; !is_same_tree(&board, &other));
    }
    Ok(())
}

// The blob with one bit of a byte turned.
fn turned(alloc: Global, blob: &[u8], place: usize) -> Result<Vec<u8>, Fail> {
    let mut bytes = blob.to_vec(alloc)?;
    let Some(byte) = bytes.get_mut(place) else {
        return Err(Fail::from("a place behind the blob"));
    };
    *byte ^= 1;
    Ok(bytes)
}

// In a reserved pair, in the name of a node, in a value, and in the name of a property.
#[test]
fn a_turned_bit_gives_another_tree(rt: HostRuntime) -> Result<(), Fail> {
    let tree = read_blob(rt.alloc(), compiled::board())?;
    for place in [44, 116, 164, 387] {
        let bytes = turned(rt.alloc(), compiled::board(), place)?;
        let other = read_blob(rt.alloc(), bytes.as_slice())?;
        assert!(rt; !is_same_tree(&tree, &other), "{place}");
    }
    Ok(())
}
