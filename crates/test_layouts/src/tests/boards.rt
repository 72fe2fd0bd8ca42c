use super::board::{
    Copies, copies_of, copies_on, in_blocks, in_place, is_too_small, layout, refusal, refusal_on,
    tree,
};
use bb_layout::{FormatKind, Layout, LayoutError, Storage};
use std::alloc::Global;
use std::process::Abort;
use std::test::Fail;

fn four_kinds() -> &'static [u8] {
    b"n@0 { reg = <0 1>; type = \"uint8\"; };
mode@4 { reg = <4 4>; type = \"enum32\"; names = \"primary\", \"backup\"; default = <1>; };
eth@8 { reg = <8 6>; type = \"mac\"; default = [00 11 22 33 44 55]; };
host@10 { reg = <16 4>; type = \"string\"; default = \"ab\"; };
"
}

#[test]
fn a_board_is_laid_out(rt: HostRuntime) -> Result<(), Fail> {
    let layout = layout(rt.alloc(), four_kinds())?;
    is_named(&rt, &layout);
    keeps_three(&rt, &layout);
    assert_eq!(rt; layout.find("host"), Some(3));
    Ok(())
}

fn is_named(rt: &impl Abort, layout: &Layout) {
    assert_eq!(rt; layout.name.as_str(), "state");
    assert_eq!(rt; layout.node.as_str(), "state@1");
    assert_eq!(rt; layout.magic, 0x4d43_3230);
}

fn keeps_three(rt: &impl Abort, layout: &Layout) {
    let strides = Copies {
        format: FormatKind::Raw,
        storage: Storage::Stride(64),
        copies: 3,
        last: 131_200,
        area_len: 20,
    };
    assert_eq!(rt; copies_of(layout), strides);
}

#[test]
fn bytes_outside_the_variables_are_zero(rt: HostRuntime) -> Result<(), Fail> {
    let layout = layout(rt.alloc(), four_kinds())?;
    if layout.area_len != 20 {
        return Err(Fail::from("another area"));
    }
    let mut area = [7u8; 20];
    layout.defaults(&mut area);
    assert_eq!(rt; area.as_slice(), defaults());
    Ok(())
}

fn defaults() -> &'static [u8] {
    b"\0\0\0\0\x01\0\0\0\x00\x11\x22\x33\x44\x55\0\0ab\0\0"
}

fn one_block() -> &'static [u8] {
    b"&p { reg = <0x20000 0x10000>; };\n"
}

fn two_blocks() -> &'static [u8] {
    b"&p { reg = <0x20000 0x20000>; };\n"
}

#[test]
fn a_log_has_two_blocks_at_least(rt: HostRuntime) -> Result<(), Fail> {
    let one = is_too_small(rt.alloc(), four_kinds(), one_block(), in_blocks())?;
    assert!(rt; one);
    let logs = Copies {
        format: FormatKind::Raw,
        storage: Storage::Circular,
        copies: 2,
        last: 196_608,
        area_len: 20,
    };
    let two = copies_on(rt.alloc(), four_kinds(), two_blocks(), in_blocks())?;
    assert_eq!(rt; two, logs);
    Ok(())
}

fn held() -> &'static [u8] {
    b"bootstate@0 { last_chosen@10 { reg = <16 4>; type = \"uint32\"; default = <0x102>; }; };\n"
}

#[test]
fn a_variable_is_called_by_the_nodes_that_hold_it(rt: HostRuntime) -> Result<(), Fail> {
    let layout = layout(rt.alloc(), held())?;
    is_called_by_its_nodes(&rt, &layout);
    assert!(rt; has_held_first(&layout));
    assert_eq!(rt; layout.area_len, 20);
    Ok(())
}

fn is_called_by_its_nodes(rt: &impl Abort, layout: &Layout) {
    assert_eq!(rt; layout.vars.len(), 1);
    assert_eq!(rt; layout.find("bootstate.last_chosen"), Some(0));
    assert_eq!(rt; layout.find("last_chosen"), None);
}

fn has_held_first(layout: &Layout) -> bool {
    match layout.vars.get(0) {
        Some(var) => var.at == 16 && var.default.as_slice() == [2, 1, 0, 0].as_slice(),
        None => false,
    }
}

#[test]
fn a_tree_without_a_state_is_refused(rt: HostRuntime) -> Result<(), Fail> {
    let refused = refusal_of(rt.alloc(), b"/dts-v1/;\n/ { };\n")?;
    assert!(rt; matches!(refused, LayoutError::NoState));
    Ok(())
}

fn refusal_of(alloc: Global, source: &[u8]) -> Result<LayoutError, Fail> {
    refusal(alloc, &tree(alloc, source)?, "ov:64")
}

fn second_of_two() -> &'static [u8] {
    b"compatible = \"a\", \"barebox,state\";\n"
}

fn unended() -> &'static [u8] {
    b"compatible = \"a\", [62 61 72 65 62 6f 78 2c 73 74 61 74 65];\n"
}

#[test]
fn a_state_is_so_by_one_string_of_many(rt: HostRuntime) -> Result<(), Fail> {
    let second = copies_on(rt.alloc(), second_of_two(), b"", in_place())?;
    assert_eq!(rt; second.copies, 3);
    let refused = refusal_on(rt.alloc(), unended(), b"", in_place())?;
    assert!(rt; matches!(refused, LayoutError::NoState));
    Ok(())
}
