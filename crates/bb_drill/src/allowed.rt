ghost use Rattle.std.specs.Prelude.{◌≡◌, ◌≢◌, ◌∷◌, [], IfOk, OnOk};
ghost use Rattle.bb_drill.specs.Tables.{allowed_after, has_table};

use crate::SessionEnd;
use bb_base::{Bytes, NoMemory};
use std::alloc::Global;
use std::marker::Model;

/// The tables that the next load may give. Clauses see the list.
#[derive(Debug, Drop)]
pub struct Allowed {
    tables: Vec<Bytes>,
}

impl Model for Allowed {
    ghost use Rattle.std.specs.Prelude.{List, ℕ};

    ghost Value = { List (List ℕ) };

    ghost view = { λ allowed. allowed.tables.items };
}

impl Allowed {
    /// This table alone.
    pub fn only(alloc: Global, table: Bytes) -> Result<Allowed, NoMemory>
        ensures { IfOk result (λ allowed. allowed ≡ table ∷ []) }
    {
        let mut tables = Vec::new(alloc);
        tables.push(table)?;
        Ok(Allowed { tables })
    }

    /// Whether this table is among them.
    pub fn has(&self, table: &[u8]) -> bool
        ensures { result ≡ has_table table.now self.now }
    {
        self.tables.iter().any(|other| other.as_slice() == table)
    }

    /// Those after a session that was to make this table. NoMemory where the session ended so, too.
    pub fn follow(&mut self, end: SessionEnd, made: Bytes) -> Result<(), NoMemory>
        ensures ok { OnOk result (self.new ≡ allowed_after end made self.old) }
        ensures ended { OnOk result (end ≢ SessionEnd.NoMemory) }
    {
        match end {
            SessionEnd::Whole => {
                self.tables.clear();
                self.tables.push(made)?;
            }
            SessionEnd::Unread => {}
            SessionEnd::Unwritten => self.tables.push(made)?,
            SessionEnd::NoMemory => return Err(NoMemory),
        }
        Ok(())
    }
}
