ghost use Rattle.std.specs.Prelude.{◌≡◌, IfOk};

use bb_base::{List, NoMemory, Text, TextList};
use std::alloc::Global;

/// What a board is handed to start a system by. A text that isn't given is empty.
#[derive(Debug, Drop)]
pub struct Plan {
    /// The target's place among the targets, counted from 1.
    pub place: u32,
    /// The kernel's file.
    pub linux: Text,
    /// The files of the initial RAM disks, in order.
    pub initrds: TextList,
    /// The kernel's command line.
    pub options: Text,
    /// The devicetree's file.
    pub devicetree: Text,
}

/// The plan of each target, in the order of the targets, or none where a target has none.
pub type PlanList = List<Option<Plan>>;

impl Plan {
    /// A copy in memory of its own.
    pub fn copy(&self, alloc: Global) -> Result<Plan, NoMemory>
        ensures { IfOk result (λ copy. copy ≡ self.now) }
    {
        Ok(Plan {
            place: self.place,
            linux: self.linux.copy()?,
            initrds: copies_of(alloc, &self.initrds)?,
            options: self.options.copy()?,
            devicetree: self.devicetree.copy()?,
        })
    }
}

fn copies_of(alloc: Global, texts: &TextList) -> Result<TextList, NoMemory>
    ensures { IfOk result (λ copies. copies ≡ texts.now) }
{
    let mut copies = TextList::none(alloc);
    for text in texts.as_slice() {
        copies.push(text.copy()?)?;
    }
    Ok(copies)
}
