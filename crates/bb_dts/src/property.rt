ghost use Rattle.std.specs.Prelude.{◌≡◌, OnOk, IfOk, codes};
ghost use Rattle.std.specs.Str.{bytes_eq};

use bb_base::{Bytes, NoMemory, Text};
use bb_tree::{DraftProp, Part, PartList};
use std::alloc::Global;
use std::mem;

/// A property that is read: its value's parts up to the last reference, and the bytes after that.
#[derive(Debug, Drop)]
pub(crate) struct Property {
    pub name: Text,
    pub parts: PartList,
    pub bytes: Bytes,
}

impl Property {
    ghost use Rattle.bb_dts.specs.Walk.{property_of_name, with_joined_bytes, with_part};
    ghost use Rattle.bb_dts.specs.Walk.{joined_parts};

    /// A property without a value so far.
    pub(crate) fn of_name(alloc: Global, name: Text) -> Property
        ensures { result ≡ property_of_name name }
    {
        Property {
            name,
            parts: PartList::none(alloc),
            bytes: Bytes::none(alloc),
        }
    }

    /// Whether the property is the node's phandle, whose value has no reference.
    pub(crate) fn is_phandle(&self) -> bool
        ensures { result ≡ bytes_eq self.now.name (codes "phandle") }
    {
        self.name.as_str() == "phandle"
    }

    /// Joins bytes to the value.
    pub(crate) fn add(&mut self, bytes: &[u8]) -> Result<(), NoMemory>
        ensures { OnOk result (self.new ≡ with_joined_bytes self.old bytes.now) }
    {
        self.bytes.add(bytes)
    }

    /// Joins a reference to the value.
    pub(crate) fn refer(&mut self, alloc: Global, reference: Part) -> Result<(), NoMemory>
        ensures { OnOk result (self.new ≡ with_part self.old reference) }
    {
        let bytes = mem::replace(&mut self.bytes, Bytes::none(alloc));
        self.parts.push(Part::Bytes(bytes))?;
        self.parts.push(reference)
    }

    /// The property with its whole value.
    pub(crate) fn finish(self) -> Result<DraftProp, NoMemory>
        ensures name { IfOk result (λ prop. prop.name ≡ self.name) }
        ensures parts { IfOk result (λ prop. prop.parts ≡ joined_parts self) }
    {
        let Property {
            name,
            mut parts,
            bytes,
        } = self;
        parts.push(Part::Bytes(bytes))?;
        Ok(DraftProp { name, parts })
    }
}
