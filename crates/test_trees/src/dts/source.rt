mod texts;

use bb_dts::{DtsError, read_source};
use bb_tree::Tree;
use std::alloc::Global;
use std::process::Abort;
use std::test::Fail;
use texts::{BOARD, PRINTED, TWO};

fn read(alloc: Global, text: &str) -> Result<Tree, DtsError> {
    let bytes = text.as_bytes();
    if bytes.len() > 4096 {
        return Err(DtsError::NoMemory);
    }
    read_source(alloc, bytes)
}

// The node at the path has the property with these bytes.
fn has(rt: &impl Abort, tree: &Tree, path: &str, name: &str, bytes: &[u8]) {
    let node = tree.find(path);
    assert_eq!(rt;
        node.and_then(|node| node.prop(name)),
        Some(bytes),
        "{path} {name}"
    );
}

fn is_the_board(rt: &impl Abort, tree: &Tree) {
    let priority = "/state/bootstate/system0/priority@4";
    has(rt, tree, priority, "default", &[0, 0, 0, 0x14]);
    has(rt, tree, priority, "reg", &[0, 0, 0, 4, 0, 0, 0, 4]);
    has(rt, tree, "/state", "magic", &[0x4d, 0x43, 0x32, 0x30]);
    has(rt, tree, "/state", "compatible", b"barebox,state\0");
    assert!(rt; tree.by_phandle(1).is_some());
    assert_eq!(rt; tree.reserved.len(), 1);
}

#[test]
fn reads_the_board(rt: HostRuntime) -> Result<(), Fail> {
    let tree = read(rt.alloc(), BOARD)?;
    is_the_board(&rt, &tree);
    Ok(())
}

fn has_other_types(rt: &impl Abort, tree: &Tree) {
    has(rt, tree, "/state/mode@4", "names", b"primary\0backup\0");
    let address = [0, 0x11, 0x22, 0x33, 0x44, 0x55];
    has(rt, tree, "/state/eth@8", "default", &address);
    has(rt, tree, "/state/host@10", "default", b"ab\0");
    assert!(rt; tree.find("/state/bootstate").is_none());
}

#[test]
fn reads_variables_of_other_types(rt: HostRuntime) -> Result<(), Fail> {
    let tree = read(rt.alloc(), TWO)?;
    has_other_types(&rt, &tree);
    Ok(())
}

fn is_the_first(rt: &impl Abort, tree: &Tree) {
    let clocks = [0, 0, 0, 1, 0, 0, 0, 1];
    has(rt, tree, "/uart@fe001000", "clocks", &clocks);
    let quoted = b"tab\there \"x\" \\ end\0";
    has(rt, tree, "/clock-controller", "quoted", quoted);
    has(rt, tree, "/chosen", "stdout-path", b"/uart@fe001000\0");
    has(rt, tree, "/chosen", "empty", b"");
}

fn reads_the_first(rt: &impl Abort, alloc: Global) -> Result<(), Fail> {
    let tree = read(alloc, PRINTED[0])?;
    is_the_first(rt, &tree);
    Ok(())
}

// In what is read of the text, the node at the path has the property with these bytes.
fn reads(
    rt: &impl Abort,
    alloc: Global,
    text: &str,
    path: &str,
    name: &str,
    bytes: &[u8],
) -> Result<(), Fail> {
    let tree = read(alloc, text)?;
    has(rt, &tree, path, name, bytes);
    Ok(())
}

#[test]
fn reads_what_dtc_prints(rt: HostRuntime) -> Result<(), Fail> {
    reads_the_first(&rt, rt.alloc())?;
    let second = "/flash@0/partitions/partition@20000";
    let region = [0, 2, 0, 0, 0, 2, 0, 0];
    reads(&rt, rt.alloc(), PRINTED[1], second, "reg", &region)?;
    let mixed = [0x78, 0, 1, 0, 0, 0, 2];
    reads(&rt, rt.alloc(), PRINTED[2], "/a/b/c", "mixed", &mixed)
}

#[test]
fn gives_a_referred_node_the_first_phandle(rt: HostRuntime) -> Result<(), Fail> {
    let text = "/dts-v1/; / { b = <&x>; x: a { }; };";
    reads(&rt, rt.alloc(), text, "/", "b", &[0, 0, 0, 1])?;
    reads(&rt, rt.alloc(), text, "/a", "phandle", &[0, 0, 0, 1])
}

// The name of the root's property at a place.
fn is_named(rt: &impl Abort, tree: &Tree, place: usize, name: &str) {
    let prop = tree.root.props.get(place);
    assert_eq!(rt; prop.map(|prop| prop.name.as_str()), Some(name));
}

fn is_merged(rt: &impl Abort, tree: &Tree) {
    has(rt, tree, "/", "a", b"q\0");
    is_named(rt, tree, 0, "a");
    is_named(rt, tree, 1, "c");
    is_named(rt, tree, 2, "b");
}

#[test]
fn keeps_the_place_of_a_merged_property(rt: HostRuntime) -> Result<(), Fail> {
    let text = "/dts-v1/; / { a = \"p\"; c; }; / { a = \"q\"; b; };";
    let tree = read(rt.alloc(), text)?;
    is_merged(&rt, &tree);
    Ok(())
}

#[test]
fn refuses_what_is_no_text(rt: HostRuntime) -> Result<(), Fail> {
    let refusal = read_source(rt.alloc(), b"/dts-v1/;\xff / { };").err();
    assert_eq!(rt; refusal, Some(DtsError::NotText(9)));
    Ok(())
}

#[test]
fn refuses_each_fault_at_its_token(rt: HostRuntime) -> Result<(), Fail> {
    let faults = [
        ("/dts-v1/; / { a = \"x", DtsError::BadToken(18)),
        ("/dts-v1/; / { a { }; b; };", DtsError::Unexpected(22)),
        (
            "/dts-v1/; / { a = <4294967296>; };",
            DtsError::NumberTooLarge(19),
        ),
        ("/dts-v1/; / { a = <(1)>; };", DtsError::LeftOut(19)),
        (
            "/dts-v1/; / {a{a{a{a{a{a{a{a{a{a{a{a{a{a{a{a{a{a{a{a{a{a{a{a{a{a{a{a{a{a{a{a{",
            DtsError::TooDeep(76),
        ),
        (
            "/dts-v1/; / { x: a { }; x: b { }; };",
            DtsError::DuplicateLabel(24),
        ),
        (
            "/dts-v1/; / { a { phandle = <1>; }; b { phandle = <1>; }; };",
            DtsError::DuplicatePhandle(60),
        ),
        ("/dts-v1/; / { b = <&x>; };", DtsError::NoSuchLabel(19)),
    ];
    for (text, refusal) in faults {
        assert_eq!(rt; read(rt.alloc(), text).err(), Some(refusal));
    }
    Ok(())
}
