use bb_base::{Bytes, NoMemory, Text};
use bb_tree::{
    Draft, DraftNode, DraftNodeList, DraftProp, DraftPropList, Node, NodeList, PairList, Part,
    PartList, Prop, PropList, Tree, TreeError, blob_length,
};
use std::alloc::Global;
use std::process::Abort;
use std::test::Fail;

fn body(alloc: Global, name: &str, value: &[u8], last: &str) -> Result<DraftNode, NoMemory> {
    let mut bytes = Bytes::none(alloc);
    bytes.add(value)?;
    let mut parts = PartList::none(alloc);
    parts.push(Part::Bytes(bytes))?;
    let mut props = DraftPropList::none(alloc);
    let name = Text::of(alloc, name)?;
    props.push(DraftProp { name, parts })?;
    let parts = PartList::none(alloc);
    let name = Text::of(alloc, last)?;
    props.push(DraftProp { name, parts })?;
    let name = Text::of(alloc, "")?;
    let nodes = DraftNodeList::none(alloc);
    Ok(DraftNode { name, props, nodes })
}

// The draft with such a body in its root.
fn with_body(alloc: Global, draft: Draft, value: &[u8], last: &str) -> Result<Draft, Fail> {
    let body = body(alloc, "a", value, last)?;
    Ok(draft.merge("/", body)?)
}

fn two_bodies(alloc: Global) -> Result<Draft, Fail> {
    let draft = with_body(alloc, Draft::none(alloc), b"p\0", "c")?;
    with_body(alloc, draft, b"q\0", "b")
}

fn label_and_reserve(draft: &mut Draft) -> Result<(), Fail> {
    draft.label("x", "/a")?;
    draft.reserve(16, 32)?;
    Ok(())
}

fn has_one_label(rt: &impl Abort, draft: &mut Draft) {
    assert_eq!(rt; draft.label("x", "/b"), Err(TreeError::DuplicateLabel));
    assert_eq!(rt; draft.by_label("x").map(|path| path.as_str()), Some("/a"));
    assert!(rt; draft.by_label("y").is_none());
}

fn has_the_root_alone(rt: &impl Abort, draft: &Draft) {
    assert!(rt; draft.has("/"));
    assert!(rt; !draft.has("/a"));
}

#[test]
fn merges_and_labels(rt: HostRuntime) -> Result<(), Fail> {
    has_the_root_alone(&rt, &Draft::none(rt.alloc()));
    let mut draft = two_bodies(rt.alloc())?;
    label_and_reserve(&mut draft)?;
    has_one_label(&rt, &mut draft);
    has_the_root_alone(&rt, &draft);
    Ok(())
}

fn is_empty(rt: &impl Abort, tree: &Tree) {
    assert!(rt; tree.find("/").is_some());
    assert!(rt; tree.find("/a").is_none());
    assert!(rt; tree.by_phandle(1).is_none());
    assert!(rt; tree.root.prop("a").is_none());
    assert!(rt; tree.root.nodes.is_empty());
    assert_eq!(rt; blob_length(tree), 72);
}

#[test]
fn finishes_an_empty_draft(rt: HostRuntime) -> Result<(), Fail> {
    let tree = Draft::none(rt.alloc()).finish()?;
    is_empty(&rt, &tree);
    Ok(())
}

// The value of `phandle = <7>`.
fn seven(alloc: Global) -> Result<Prop, Fail> {
    let name = Text::of(alloc, "phandle")?;
    let mut value = Bytes::none(alloc);
    value.add(&[0, 0, 0, 7])?;
    Ok(Prop { name, value })
}

fn props_with_seven(alloc: Global) -> Result<PropList, Fail> {
    let mut props = PropList::none(alloc);
    props.push(seven(alloc)?)?;
    Ok(props)
}

// The node `a { phandle = <7>; }`.
fn node_with_phandle(alloc: Global) -> Result<Node, Fail> {
    let name = Text::of(alloc, "a")?;
    Ok(Node {
        name,
        props: props_with_seven(alloc)?,
        nodes: NodeList::none(alloc),
    })
}

fn node_alone(alloc: Global) -> Result<NodeList, Fail> {
    let mut nodes = NodeList::none(alloc);
    nodes.push(node_with_phandle(alloc)?)?;
    Ok(nodes)
}

// The tree `/ { a { phandle = <7>; }; }`.
fn tree_with_phandle(alloc: Global) -> Result<Tree, Fail> {
    let name = Text::of(alloc, "")?;
    let root = Node {
        name,
        props: PropList::none(alloc),
        nodes: node_alone(alloc)?,
    };
    Ok(Tree {
        root,
        reserved: PairList::none(alloc),
    })
}

fn finds_by_phandle(rt: &impl Abort, tree: &Tree) {
    let found = tree.by_phandle(7).map(|node| node.name.as_str());
    assert_eq!(rt; found, Some("a"));
    assert!(rt; tree.by_phandle(8).is_none());
}

fn finds_by_path(rt: &impl Abort, tree: &Tree) -> Result<(), Fail> {
    let found = tree.find("/a").ok_or("no node is at the path")?;
    assert_eq!(rt; found.prop("phandle"), Some([0, 0, 0, 7].as_slice()));
    assert!(rt; found.prop("reg").is_none());
    assert!(rt; tree.find("/b").is_none());
    assert!(rt; tree.find("a").is_none());
    Ok(())
}

#[test]
fn a_tree_is_looked_through_in_preorder(rt: HostRuntime) -> Result<(), Fail> {
    let tree = tree_with_phandle(rt.alloc())?;
    // dtc 1.6.1 makes as many of `/ { a { phandle = <7>; }; };`
    assert_eq!(rt; blob_length(&tree), 108);
    finds_by_phandle(&rt, &tree);
    finds_by_path(&rt, &tree)
}
