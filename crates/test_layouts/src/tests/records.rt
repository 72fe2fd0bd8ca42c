use super::board::{laid_out, tree};
use bb_layout::Layout;
use bb_tree::{Tree, blob_length};
use std::alloc::Global;
use std::test::Fail;

fn lone_byte() -> &'static [u8] {
    b"/dts-v1/;
/ {
  partition@0 { reg = <0 192>; };
  state {
    compatible = \"barebox,state\";
    magic = <0x4d433230>;
    backend-type = \"raw\";
    backend = \"/partition@0\";
    a@0 { reg = <0 1>; type = \"uint8\"; };
  };
};
"
}

/// Whether the node at a path has that value.
pub fn has_value(record: &Tree, path: &str, name: &str, value: &[u8]) -> bool {
    let Some(node) = record.find(path) else {
        return false;
    };
    node.prop(name) == Some(value)
}

fn record_of_seven(alloc: Global, layout: &Layout) -> Result<Tree, Fail> {
    if layout.area_len != 1 {
        return Err(Fail::from("another area"));
    }
    Ok(Layout::record_tree(alloc, layout, &[7])?)
}

fn record(alloc: Global) -> Result<Tree, Fail> {
    let tree = tree(alloc, lone_byte())?;
    record_of_seven(alloc, &laid_out(alloc, &tree, "ov:192")?)
}

#[test]
fn a_record_of_one_byte_is_a_blob_of_208(rt: HostRuntime) -> Result<(), Fail> {
    let record = record(rt.alloc())?;
    assert_eq!(rt; blob_length(&record), 208);
    assert!(rt; has_value(&record, "/state/a@0", "value", b"\0\0\0\x07"));
    assert!(rt; has_value(&record, "/state", "magic", b"MC20"));
    Ok(())
}
