ghost use Rattle.bb_layout.specs.Facts.{HasFewNames-prop, IsLayout};
ghost use Rattle.bb_layout.specs.Formats.{record_len};
ghost use Rattle.std.proofs.Props.{props};

use crate::convert::convert_area;
use crate::defaults::fill_defaults;
use crate::placing::spacing;
use crate::record_tree::record_tree;
use crate::{FormatKind, Storage, VarList};
use bb_base::{NoMemory, Text};
use bb_flash::{Geometry, Region};
use bb_tree::Tree;
use std::alloc::Global;

/// What a state node says: its variables in an area, and the copies of that area on a device. Two
/// or three copies stand in the partition, each with room for its record, and the partition on the
/// device: in strides on one that is overwritten in place, in whole erase blocks on any other. The
/// variables' names differ, and their ranges share no byte.
#[derive(Drop)]
pub struct Layout {
    /// The name by which it is asked for.
    pub name: Text,
    /// The state node's full name.
    pub node: Text,
    /// The magic word of a copy's record.
    pub magic: u32,
    pub format: FormatKind,
    pub storage: Storage,
    /// The device.
    pub geometry: Geometry,
    /// The partition that holds the copies.
    pub region: Region,
    /// How many copies there are, 2 or 3.
    pub copies: u32,
    /// How many bytes the area has, at most 65,535.
    pub area_len: u32,
    /// The variables, in the order of the devicetree.
    pub vars: VarList,
    pub ghost facts: { IsLayout geometry region storage copies
        (record_len format (record { node = node; magic = magic; vars = vars }) area_len)
        area_len vars } by { Prim.hlevel (props, HasFewNames-prop) },
}

impl Layout {
    ghost use Rattle.std.specs.Prelude.{◌≡◌, ◌≤◌, ◌<◌, [], IfOk, length};
    ghost use Rattle.bb_tree.specs.NodeViews.{branch_of};
    ghost use Rattle.bb_layout.specs.Convert.{convert_of};
    ghost use Rattle.bb_layout.specs.Copies.{region_of, room_for};
    ghost use Rattle.bb_layout.specs.Defaults.{defaults_of};
    ghost use Rattle.bb_layout.specs.Facts.{IsAligned, IsWithin};
    ghost use Rattle.bb_layout.specs.Layout.{fields_of, laid_len, recorded_of};
    ghost use Rattle.bb_layout.specs.Record.{record_tree_of};
    ghost use Rattle.bb_layout.specs.VarNames.{place_of_var};

    /// Where a copy stands, counted from 0.
    pub fn region(&self, copy: u32) -> Region
        requires { copy < self.now.copies }
        ensures value { result ≡ region_of self.now.geometry self.now.storage self.now.region copy }
        ensures within { IsWithin self.now.region result }
        ensures aligned { IsAligned self.now.geometry result }
        ensures room { room_for self.now.geometry self.now.storage (laid_len (fields_of self.now))
            ≤ result.size }
    {
        let size = spacing(self.geometry, self.storage);
        Region {
            at: self.region.at + copy * size,
            size,
        }
    }

    /// The place of the variable of that name in `vars`.
    pub fn find(&self, name: &str) -> Option<usize>
        ensures { result ≡ place_of_var self.now.vars name.now }
    {
        self.vars.find(name)
    }

    /// Fills an area of `area_len` bytes with the variables' defaults. All bytes outside the
    /// variables become 0.
    pub fn defaults(&self, out: &mut [u8])
        requires { length out.old ≡ self.now.area_len }
        ensures { out.new ≡ defaults_of self.now.area_len self.now.vars }
    {
        fill_defaults(&self.vars, out);
    }

    /// Fills an area of `area_len` bytes with what a stored area of any length stands for, as one
    /// does that was saved under another layout of the family. A variable that ends within the
    /// stored area has its stored bytes, any other its default. A byte outside the variables is the
    /// stored one, or 0 after the stored area's end.
    pub fn convert(&self, stored: &[u8], out: &mut [u8])
        requires { length out.old ≡ self.now.area_len }
        ensures value { out.new ≡ convert_of self.now.area_len self.now.vars stored.now }
        ensures same { length stored.now ≡ self.now.area_len → out.new ≡ stored.now }
        ensures empty { stored.now ≡ []
            → out.new ≡ defaults_of self.now.area_len self.now.vars }
    {
        convert_area(&self.vars, stored, out);
    }

    /// The tree whose blob is the record of an area of `area_len` bytes, where that is a blob: 4
    /// zero bytes stand in it for its CRC. A variable's node stands in those of its path, and
    /// shares with the variable before it the nodes of the longest path that leads to both. A
    /// number is a cell, big endian; a MAC address and a string are their bytes.
    pub fn record_tree(alloc: Global, layout: &Layout, area: &[u8]) -> Result<Tree, NoMemory>
        requires { length area.now ≡ layout.now.area_len }
        ensures tree { IfOk result (λ tree. branch_of tree.root
            ≡ record_tree_of (recorded_of (fields_of layout.now)) area.now) }
        ensures none_reserved { IfOk result (λ tree. tree.reserved ≡ []) }
    {
        record_tree(alloc, &layout.node, layout.magic, &layout.vars, area)
    }
}
