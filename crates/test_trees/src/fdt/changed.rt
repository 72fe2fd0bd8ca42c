use super::fields::{Answer, Parts, WORKED, answer};
use bb_fdt::{FdtError, Field, read_blob};
use bb_tree::{Node, Tree};
use byteorder::{BigEndian, ByteOrder};
use std::alloc::Global;

// A reserved pair, and a root with a property `p` and a node `a`, which has a property `q`. A token
// of each kind stands in it; `dtc` reads it to that tree.
#[rattlefmt::skip]
fn blob() -> [u8; 140] {
    [
        0xd0, 0x0d, 0xfe, 0xed, 0x00, 0x00, 0x00, 0x8c, 0x00, 0x00, 0x00, 0x48,
        0x00, 0x00, 0x00, 0x88, 0x00, 0x00, 0x00, 0x28, 0x00, 0x00, 0x00, 0x11,
        0x00, 0x00, 0x00, 0x10, 0x00, 0x00, 0x00, 0x00, 0x00, 0x00, 0x00, 0x04,
        0x00, 0x00, 0x00, 0x40, 0x00, 0x00, 0x00, 0x00, 0x10, 0x00, 0x00, 0x00,
        0x00, 0x00, 0x00, 0x00, 0x00, 0x00, 0x40, 0x00, 0x00, 0x00, 0x00, 0x00,
        0x00, 0x00, 0x00, 0x00, 0x00, 0x00, 0x00, 0x00, 0x00, 0x00, 0x00, 0x00,
        0x00, 0x00, 0x00, 0x01, 0x00, 0x00, 0x00, 0x00, 0x00, 0x00, 0x00, 0x04,
        0x00, 0x00, 0x00, 0x03, 0x00, 0x00, 0x00, 0x04, 0x00, 0x00, 0x00, 0x00,
        0x00, 0x00, 0x00, 0x04, 0x00, 0x00, 0x00, 0x01, 0x61, 0x00, 0x00, 0x00,
        0x00, 0x00, 0x00, 0x03, 0x00, 0x00, 0x00, 0x02, 0x00, 0x00, 0x00, 0x02,
        0x78, 0x79, 0x00, 0x00, 0x00, 0x00, 0x00, 0x02, 0x00, 0x00, 0x00, 0x02,
        0x00, 0x00, 0x00, 0x09, 0x70, 0x00, 0x71, 0x00,
    ]
}

// Whether the bytes from a place on are these.
fn stands_at(bytes: &[u8], place: usize, part: &[u8]) -> bool {
    bytes
        .get(place..)
        .is_some_and(|rest| rest.starts_with(part))
}

// The only property of a node, by where its name of one byte and its value stand in the blob.
fn has_property(node: &Node, bytes: &[u8], name_at: usize, value_at: usize, len: usize) -> bool {
    let Some(prop) = node.props.get(0) else {
        return false;
    };
    let name = prop.name.as_str();
    let value = prop.value.as_slice();
    node.props.len() == 1
        && name.len() == 1
        && stands_at(bytes, name_at, name.as_bytes())
        && value.len() == len
        && stands_at(bytes, value_at, value)
}

fn has_child(root: &Node, bytes: &[u8], parts: Parts) -> bool {
    let Some(child) = root.nodes.get(0) else {
        return false;
    };
    let name = child.name.as_str();
    root.nodes.len() == 1
        && name.len() == 1
        && stands_at(bytes, 104, name.as_bytes())
        && has_property(child, bytes, parts.name_at, 120, parts.child_len)
        && child.nodes.is_empty()
}

fn has_pair(tree: &Tree, bytes: &[u8; 140]) -> bool {
    let address = BigEndian::read_u64(&bytes[40..]);
    let len = BigEndian::read_u64(&bytes[48..]);
    tree.reserved.len() == 1 && tree.reserved.get(0) == Some(&(address, len))
}

fn has_parts(tree: &Tree, bytes: &[u8; 140], parts: Parts) -> bool {
    has_pair(tree, bytes)
        && tree.root.name.as_str().is_empty()
        && has_property(&tree.root, bytes, 136, 96, parts.root_len)
        && has_child(&tree.root, bytes, parts)
}

fn is_answered(alloc: Global, bytes: &[u8; 140], expected: Answer) -> bool {
    match read_blob(alloc, bytes) {
        Ok(tree) => expected.is_ok_and(|parts| has_parts(&tree, bytes, parts)),
        Err(e) => expected == Err(e),
    }
}

// Whether the blob is answered as its fields say where the byte at a place gets this value.
fn change_is_answered(alloc: Global, place: usize, value: u8) -> bool {
    let mut bytes = blob();
    let Some(byte) = bytes.get_mut(place) else {
        return false;
    };
    let expected = if *byte == value {
        Ok(WORKED)
    } else {
        answer(place, value)
    };
    *byte = value;
    is_answered(alloc, &bytes, expected)
}

#[test]
fn each_byte_changed(rt: HostRuntime) {
    for place in 0..140usize {
        for value in [0u8, 1, 0x7F, 0x80, 0xFF] {
            let answered = change_is_answered(rt.alloc(), place, value);
            assert!(rt; answered, "byte {place} changed to {value}");
        }
    }
}

// What the bytes in front of a place are refused as.
fn refusal(alloc: Global, place: usize) -> Option<FdtError> {
    let bytes = blob();
    let front = bytes.get(..place).unwrap_or(&[]);
    read_blob(alloc, front).err()
}

#[test]
fn each_prefix(rt: HostRuntime) {
    for place in 0..40usize {
        let refused = refusal(rt.alloc(), place);
        assert_eq!(rt; refused, Some(FdtError::NotBlob), "cut at {place}");
    }
    for place in 40..140usize {
        let refused = refusal(rt.alloc(), place);
        assert_eq!(rt;
            refused,
            Some(FdtError::OutOfBounds(Field::Total)),
            "cut at {place}"
        );
    }
    assert_eq!(rt; refusal(rt.alloc(), 140), None);
}
