use bb_base::{Bytes, NoMemory};
use bb_dts::read_source;
use bb_flash::geometry_of;
use bb_layout::{FormatKind, Layout, LayoutError, Storage, layout_of};
use bb_tree::Tree;
use std::alloc::Global;
use std::test::Fail;

/// A device of 1 MiB that is overwritten in place.
pub fn in_place() -> &'static str {
    "ov:1048576"
}

/// A device of 1 MiB in 16 erase blocks.
pub fn in_blocks() -> &'static str {
    "er:256:65536:1048576"
}

fn front() -> &'static [u8] {
    b"/dts-v1/;
/ {
  p: partition@20000 { reg = <0x20000 0x30000>; };
  state@1 {
    compatible = \"barebox,state\";
    magic = <0x4d433230>;
    backend-type = \"raw\";
    backend = \"/partition@20000\";
    backend-stridesize = <0x40>;
"
}

fn back() -> &'static [u8] {
    b"  };\n};\n"
}

fn source(alloc: Global, state: &[u8], more: &[u8]) -> Result<Bytes, NoMemory> {
    let mut text = Bytes::none(alloc);
    text.add(front())?;
    text.add(state)?;
    text.add(back())?;
    text.add(more)?;
    Ok(text)
}

/// The tree of a short source.
pub fn tree(alloc: Global, text: &[u8]) -> Result<Tree, Fail> {
    if text.len() > 4096 {
        return Err(Fail::from("a long source"));
    }
    let Ok(tree) = read_source(alloc, text) else {
        return Err(Fail::from("the source is refused"));
    };
    Ok(tree)
}

/// A board with these properties and nodes in its state node, and this text after its root; a
/// property that is there already gets the new value.
pub fn board(alloc: Global, state: &[u8], more: &[u8]) -> Result<Tree, Fail> {
    tree(alloc, source(alloc, state, more)?.as_slice())
}

/// The layout of a tree on a device, which isn't refused.
pub fn laid_out(alloc: Global, tree: &Tree, geometry: &str) -> Result<Layout, Fail> {
    let Some(geometry) = geometry_of(geometry) else {
        return Err(Fail::from("the geometry is refused"));
    };
    let Ok(layout) = layout_of(alloc, tree, None, geometry) else {
        return Err(Fail::from("the tree is refused"));
    };
    Ok(layout)
}

/// The refusal of a tree on a device.
pub fn refusal(alloc: Global, tree: &Tree, geometry: &str) -> Result<LayoutError, Fail> {
    let Some(geometry) = geometry_of(geometry) else {
        return Err(Fail::from("the geometry is refused"));
    };
    let Err(why) = layout_of(alloc, tree, None, geometry) else {
        return Err(Fail::from("the tree is laid out"));
    };
    Ok(why)
}

/// The layout of a board on a device, which isn't refused.
pub fn layout_on(alloc: Global, state: &[u8], more: &[u8], geometry: &str) -> Result<Layout, Fail> {
    laid_out(alloc, &board(alloc, state, more)?, geometry)
}

/// Such a layout on a device that is overwritten in place.
pub fn layout(alloc: Global, state: &[u8]) -> Result<Layout, Fail> {
    layout_on(alloc, state, b"", in_place())
}

/// The refusal of a board on a device.
pub fn refusal_on(
    alloc: Global,
    state: &[u8],
    more: &[u8],
    geometry: &str,
) -> Result<LayoutError, Fail> {
    refusal(alloc, &board(alloc, state, more)?, geometry)
}

/// Whether a board is refused since its copies or records have no room.
pub fn is_too_small(
    alloc: Global,
    state: &[u8],
    more: &[u8],
    geometry: &str,
) -> Result<bool, Fail> {
    let why = refusal_on(alloc, state, more, geometry)?;
    Ok(matches!(why, LayoutError::TooSmall))
}

/// Whether the state is refused as it is for a property of that name and value.
pub fn is_bad_prop(alloc: Global, state: &[u8], name: &str) -> Result<bool, Fail> {
    let why = refusal_on(alloc, state, b"", in_place())?;
    Ok(is_for_prop(&why, name))
}

fn is_for_prop(why: &LayoutError, name: &str) -> bool {
    match why {
        LayoutError::BadProp(bad) => bad.as_str() == name,
        _ => false,
    }
}

/// How a layout keeps its copies.
#[derive(Clone, Copy, Debug, PartialEq, Eq)]
pub struct Copies {
    pub format: FormatKind,
    pub storage: Storage,
    pub copies: u32,
    /// Where the last of them stands.
    pub last: u32,
    pub area_len: u32,
}

/// How this layout keeps them.
pub fn copies_of(layout: &Layout) -> Copies {
    Copies {
        format: layout.format,
        storage: layout.storage,
        copies: layout.copies,
        last: layout.region(layout.copies - 1).at,
        area_len: layout.area_len,
    }
}

/// How the layout of a board on a device keeps its copies.
pub fn copies_on(alloc: Global, state: &[u8], more: &[u8], geometry: &str) -> Result<Copies, Fail> {
    let layout = layout_on(alloc, state, more, geometry)?;
    Ok(copies_of(&layout))
}
