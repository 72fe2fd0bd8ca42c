use super::*;
use bb_base::Text;
use bb_flash::geometry_of;
use bb_layout::{FormatKind, layout_of};
use bb_tree::{Node, NodeList, PairList, Prop, PropList, Tree};

fn add(alloc: Global, props: &mut PropList, name: &str, value: &[u8]) -> Result<(), NoMemory> {
    let value = bytes(alloc, value)?;
    let name = Text::of(alloc, name)?;
    props.push(Prop { name, value })
}

fn node(alloc: Global, name: &str, props: PropList, nodes: NodeList) -> Result<Node, NoMemory> {
    let name = Text::of(alloc, name)?;
    Ok(Node { name, props, nodes })
}

// A variable of one byte.
fn variable(alloc: Global) -> Result<Node, NoMemory> {
    let mut props = PropList::none(alloc);
    add(alloc, &mut props, "reg", b"\0\0\0\0\0\0\0\x01")?;
    add(alloc, &mut props, "type", b"uint8\0")?;
    node(alloc, "a@0", props, NodeList::none(alloc))
}

fn state(alloc: Global) -> Result<Node, NoMemory> {
    let mut props = PropList::none(alloc);
    add(alloc, &mut props, "compatible", b"barebox,state\0")?;
    add(alloc, &mut props, "magic", b"\x124Vx")?;
    add(alloc, &mut props, "backend-type", b"dtb\0")?;
    add(alloc, &mut props, "backend", b"/partition\0")?;
    let mut nodes = NodeList::none(alloc);
    nodes.push(variable(alloc)?)?;
    node(alloc, "state", props, nodes)
}

fn board(alloc: Global) -> Result<Tree, NoMemory> {
    let mut props = PropList::none(alloc);
    add(alloc, &mut props, "reg", b"\0\0\0\0\0\0\x10\0")?;
    let mut nodes = NodeList::none(alloc);
    nodes.push(node(alloc, "partition", props, NodeList::none(alloc))?)?;
    nodes.push(state(alloc)?)?;
    let root = node(alloc, "", PropList::none(alloc), nodes)?;
    let reserved = PairList::none(alloc);
    Ok(Tree { root, reserved })
}

// The record in which the variable is 5: dtc's blob of its tree, and zlib's CRC of that.
fn record() -> [u8; 208] {
    let mut record = [0u8; 208];
    record[0..33].copy_from_slice(
        b"\xd0\x0d\xfe\xed\0\0\0\xd0\0\0\08\0\0\0\xb0\0\0\0(\0\0\0\x11\0\0\0\x10\0\0\0\0\0",
    );
    record[33..71].copy_from_slice(
        b"\0\0 \0\0\0x\0\0\0\0\0\0\0\0\0\0\0\0\0\0\0\0\0\0\0\x01\0\0\0\0\0\0\0\x03\0\0\0",
    );
    record[71..114].copy_from_slice(
        b"\x04\0\0\0\00<T\xa4\0\0\0\x01state\0\0\0\0\0\0\x03\0\0\0\x0e\0\0\0\x09barebox,st",
    );
    record[114..151].copy_from_slice(
        b"ate\0\0\0\0\0\0\x03\0\0\0\x04\0\0\0\x14\x124Vx\0\0\0\x01a@0\0\0\0\0\x03\0\0\0",
    );
    record[151..191].copy_from_slice(
        b"\x04\0\0\0\x1a\0\0\0\x05\0\0\0\x02\0\0\0\x02\0\0\0\x02\0\0\0\x09bb,crc32\0compat",
    );
    record[191..].copy_from_slice(b"ible\0magic\0value\0");
    record
}

#[test]
fn the_record_of_a_layout_is_the_blob_of_dtc(rt: HostRuntime) -> Result<(), Fail> {
    let board = board(rt.alloc())?;
    let geometry = geometry_of("ov:1048576").ok_or("no geometry")?;
    let Ok(layout) = layout_of(rt.alloc(), &board, None, geometry) else {
        return Err(Fail::from("the board is refused"));
    };
    let FormatKind::Dtb = layout.format else {
        return Err(Fail::from("another format"));
    };
    if layout.area_len != 1 {
        return Err(Fail::from("another area"));
    }
    let dtb = Dtb::of(rt.alloc(), &layout)?;
    assert_eq!(rt; dtb.reach(), 208);
    let mut area = [0xFFu8; 1];
    assert!(rt; dtb.check(&record(), &mut area).is_some());
    assert_eq!(rt; area, [5]);
    Ok(())
}
