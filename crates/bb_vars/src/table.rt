ghost use Rattle.std.specs.Prelude.{◌≡◌, ◌+◌, ◌≤◌, length, IfErr, IfOk, OnErr, OnOk};
ghost use Rattle.bb_vars.specs.Kind.{HasFewNames, size_of};
ghost use Rattle.bb_vars.specs.Refusals.{Refuses};
ghost use Rattle.bb_vars.specs.Setting.{with_value};
ghost use Rattle.bb_vars.specs.Table.{table_with};
ghost use Rattle.bb_vars.specs.Value.{bytes_of};

use crate::{Kind, ValueError, read_value};
use bb_base::NoMemory;
use std::alloc::Global;
use std::marker::Model;

/// The bytes of all variables, as an area holds them. Their number never changes. Clauses see the
/// list.
#[derive(Debug, Drop)]
pub struct Table {
    inner: Vec<u8>,
}

impl Model for Table {
    ghost use Rattle.std.specs.Prelude.{List, ℕ};

    ghost Value = { List ℕ };

    ghost view = { λ t. t.inner.items };
}

impl Table {
    /// A table of these bytes.
    pub fn of(alloc: Global, bytes: &[u8]) -> Result<Table, NoMemory>
        ensures { IfOk result (λ table. table ≡ bytes.now) }
    {
        let inner = Vec::from_slice(alloc, bytes)?;
        Ok(Table { inner })
    }

    /// The bytes, from the first on.
    pub fn bytes(&self) -> &[u8]
        ensures { result.now ≡ self.now }
    {
        self.inner.as_slice()
    }

    /// Replaces the bytes from byte `at` on, which are all inside. All others stay.
    pub fn put(&mut self, at: u32, bytes: &[u8])
        requires { at + length bytes.now ≤ length self.old }
        ensures replaced { self.new ≡ table_with self.old at bytes.now }
        ensures same_length { length self.new ≡ length self.old }
    {
        let at = at as usize;
        self.inner[at..at + bytes.len()].copy_from_slice(bytes);
    }

    /// Reads a text as a value of the kind into the bytes from byte `at` on, which are all inside,
    /// as `read_value` does. All other bytes stay. After a refusal all bytes are as before.
    pub fn put_value(&mut self, kind: &Kind, at: u32, text: &[u8]) -> Result<(), ValueError>
        requires inside { at + size_of kind.now ≤ length self.old }
        requires few_names { HasFewNames kind.now }
        ensures put { OnOk result (with_value kind.now at text.now self.old ≡ Ok self.new) }
        ensures refused { IfErr result (Refuses (bytes_of kind.now text.now)) }
        ensures unchanged { OnErr result (self.new ≡ self.old) }
        ensures same_length { length self.new ≡ length self.old }
    {
        let from = at as usize;
        read_value(
            kind,
            text,
            &mut self.inner[from..from + kind.size() as usize],
        )
    }
}
