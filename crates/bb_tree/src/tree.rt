ghost use Rattle.std.specs.Prelude.{◌≡◌};

use crate::Node;
use crate::find::{find_behind, first_with};
use bb_base::List;

/// Reserved pairs of a place and a length, in their order.
pub type PairList = List<(u64, u64)>;

/// A whole tree: its root, and the reserved pairs of a place and a length.
#[derive(Debug, Drop)]
pub struct Tree {
    pub root: Node,
    pub reserved: PairList,
}

impl Tree {
    ghost use Rattle.bb_tree.specs.NodeViews.{branch_of, branch_seen};
    ghost use Rattle.bb_tree.specs.Paths.{found};
    ghost use Rattle.bb_tree.specs.Phandle.{node_with};

    /// The node at a path: full node names, each after a `/`; `/` alone is the root. Of nodes of
    /// one name the first is taken at each level, so a name that holds a `/` is never found.
    pub fn find(&self, path: &str) -> Option<&Node>
        ensures { branch_seen result ≡ found path.now (branch_of self.now.root) }
    {
        let names = path.strip_prefix('/')?;
        if names.is_empty() {
            return Some(&self.root);
        }
        find_behind(&self.root, names)
    }

    /// The first node in preorder that has this phandle: a property `phandle` of 4 bytes,
    /// big-endian, neither 0 nor 0xFFFFFFFF (Devicetree Specification v0.4, section 2.3.3).
    pub fn by_phandle(&self, phandle: u32) -> Option<&Node>
        ensures { branch_seen result ≡ node_with phandle (branch_of self.now.root) }
    {
        first_with(&self.root, phandle)
    }
}
