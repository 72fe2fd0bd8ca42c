ghost use Rattle.std.specs.Prelude.{◌≡◌, ◌++◌, ◌∷◌, [], None, OnOk, OnErr, fold, slice_get};
ghost use Rattle.std.specs.Option.{option_map};
ghost use Rattle.std.specs.Map.{lookup};
ghost use Rattle.std.specs.Str.{bytes_eq};
ghost use Rattle.bb_tree.specs.Blob.{has_name, with_name, prop_names, offset_of, strings_block};
ghost use Rattle.bb_tree.specs.BlobLength.{names_of_props};
ghost use Rattle.bb_tree.specs.Node.{grow, empty};
ghost use Rattle.bb_tree.specs.NodeViews.{branch_of};
ghost use Rattle.bb_tree.specs.Texts.{texts_in};

use bb_base::NoMemory;
use bb_tree::{Node, PropList};
use indexmap::IndexMap;
use std::alloc::Global;
use std::marker::Model;

/// Names of properties, each once, in the order of first use. Clauses see the list of them.
#[derive(Drop)]
pub(crate) struct Names {
    alloc: Global,
    // where each name begins in the strings block
    places: IndexMap<String, usize>,
    // the strings block's length
    len: usize,
}

impl Model for Names {
    ghost use Rattle.std.specs.Prelude.{List, ℕ};
    ghost use Rattle.bb_fdt.specs.Names.{found_names, ArePlaced};

    ghost Value = { List (List ℕ) };

    ghost view = { found_names };

    ghost invariant = { ArePlaced };
}

impl Names {
    pub(crate) fn none(alloc: Global) -> Names
        ensures { result ≡ [] }
    {
        Names {
            alloc,
            places: IndexMap::new(alloc),
            len: 0,
        }
    }

    /// Where the name begins in the strings block, the block's length for a name that isn't there.
    #[tactic(auto, using(crate::proofs::NamesLemmas::offset_placed))]
    pub(crate) fn offset_of(&self, name: &str) -> usize
        ensures { result ≡ offset_of self.now name.now }
    {
        place_of(&self.places, name).unwrap_or(self.len)
    }

    #[tactic(auto, using(crate::proofs::NamesLemmas::has_lookup))]
    fn has(&self, name: &str) -> bool
        ensures { result ≡ has_name self.now name.now }
    {
        place_of(&self.places, name).is_some()
    }

    // Adds the name last, unless it is there.
    fn add(&mut self, name: &str) -> Result<(), NoMemory>
        ensures { OnOk result (self.new ≡ with_name self.old name.now) }
    {
        if self.has(name) {
            return Ok(());
        }
        let more = name.len() + 1;
        let Some(len) = self.len.checked_add(more) else {
            return Err(NoMemory);
        };
        add_last(self.alloc, &mut self.places, name, self.len)?;
        self.len = len;
        Ok(())
    }

    fn add_props(&mut self, props: &PropList) -> Result<(), NoMemory>
        ensures { OnOk result (self.new ≡ fold with_name self.old (names_of_props props.now)) }
    {
        for prop in props.as_slice() {
            self.add(prop.name.as_str())?;
        }
        Ok(())
    }

    /// Adds the names of the node's properties, and then those of the nodes in it.
    pub(crate) fn add_node(&mut self, node: &Node) -> Result<(), NoMemory>
        ensures { OnOk result (self.new
            ≡ fold with_name self.old (prop_names (grow (branch_of node.now) empty))) }
    {
        self.add_props(&node.props)?;
        for child in &node.nodes.inner {
            self.add_node(child)?;
        }
        Ok(())
    }

    /// Appends the strings block.
    pub(crate) fn write(&self, bytes: &mut Vec<u8>) -> Result<(), NoMemory>
        ensures { OnOk result (bytes.new.items ≡ bytes.old.items ++ strings_block self.now) }
    {
        for i in 0..self.places.len() {
            let Some((name, _)) = nth(&self.places, i) else {
                unreachable!()
            };
            bytes.extend_from_slice(name.as_bytes())?;
            bytes.push(0)?;
        }
        Ok(())
    }
}

fn place_of(places: &IndexMap<String, usize>, name: &str) -> Option<usize>
    ensures { result ≡ lookup (bytes_eq name.now) (texts_in places.now.entries) }
{
    places.get(name).copied()
}

fn nth(places: &IndexMap<String, usize>, i: usize) -> Option<(&str, usize)>
    ensures { option_map (λ e. (e.0.now, e.1)) result ≡ slice_get (texts_in places.now.entries) i }
{
    match places.get_index(i) {
        Some((name, place)) => Some((name.as_str(), *place)),
        None => None,
    }
}

// Adds a name that isn't there.
fn add_last(
    alloc: Global,
    places: &mut IndexMap<String, usize>,
    name: &str,
    place: usize,
) -> Result<(), NoMemory>
    requires { lookup (bytes_eq name.now) (texts_in places.old.entries) ≡ None }
    ensures ok { OnOk result (texts_in places.new.entries
        ≡ texts_in places.old.entries ++ (name.now, place) ∷ []) }
    ensures err { OnErr result (texts_in places.new.entries ≡ texts_in places.old.entries) }
{
    let key = String::from_str(alloc, name)?;
    let _ = places.insert(key, place)?;
    Ok(())
}
