// What is read of the blobs that dtc compiled, and what is written of it. fdtget gives their
// values.
use super::compiled;
use bb_fdt::{read_blob, write_blob};
use bb_tree::{Tree, blob_length};
use std::test::Fail;

// The node at the path has the property with these bytes.
fn has(tree: &Tree, path: &str, name: &str, bytes: &[u8]) -> bool {
    let Some(node) = tree.find(path) else {
        return false;
    };
    let Some(value) = node.prop(name) else {
        return false;
    };
    value == bytes
}

fn has_pair(tree: &Tree) -> bool {
    tree.reserved.get(0) == Some(&(0x1000_0000, 0x4000))
}

fn quoted() -> &'static [u8] {
    b"tab\there \"x\" \\ end\0"
}

#[test]
fn pairs_references_and_texts(rt: HostRuntime) -> Result<(), Fail> {
    let tree = read_blob(rt.alloc(), compiled::board())?;
    assert!(rt; has_pair(&tree));
    assert!(rt; has(&tree, "/uart@fe001000", "clocks", &[0, 0, 0, 1, 0, 0, 0, 1]));
    assert!(rt; has(&tree, "/clock-controller", "quoted", quoted()));
    assert!(rt; has(&tree, "/chosen", "stdout-path", b"/uart@fe001000\0"));
    assert!(rt; has(&tree, "/chosen", "empty", b""));
    Ok(())
}

#[test]
fn cells_of_a_partition(rt: HostRuntime) -> Result<(), Fail> {
    let tree = read_blob(rt.alloc(), compiled::flash())?;
    let second = "/flash@0/partitions/partition@20000";
    assert!(rt; has(&tree, second, "reg", &[0, 2, 0, 0, 0, 2, 0, 0]));
    Ok(())
}

#[test]
fn cells_and_bytes_in_one_value(rt: HostRuntime) -> Result<(), Fail> {
    let tree = read_blob(rt.alloc(), compiled::deep())?;
    assert!(rt; has(&tree, "/a/b/c", "mixed", &[0x78, 0, 1, 0, 0, 0, 2]));
    Ok(())
}

#[test]
fn writes_what_dtc_compiles(rt: HostRuntime) -> Result<(), Fail> {
    let tree = read_blob(rt.alloc(), compiled::deep())?;
    assert_eq!(rt; blob_length(&tree), 179);
    let mut out = [0xFF; 179];
    write_blob(rt.alloc(), &tree, &mut out)?;
    assert!(rt; out.as_slice() == compiled::deep());
    Ok(())
}
