ghost use Rattle.std.specs.Prelude.{◌≡◌, IfErr, IfOk, Ok};
ghost use Rattle.bb_script.specs.Script.{Refuses, script_of};
ghost use Rattle.bb_script.specs.Views.{script_tree};

use crate::{Script, ScriptError, read_script};
use std::alloc::Global;
use std::marker::Model;

/// A script that a text spells. Clauses see its tree.
#[derive(Debug, Drop)]
pub struct SpeltScript {
    script: Script,
}

impl Model for SpeltScript {
    ghost use Rattle.bb_script.specs.Tree.{ScriptTree};
    ghost use Rattle.bb_script.specs.TreeCode.{script_code};

    ghost Value = { ScriptTree };

    ghost coded = { script_code };

    ghost use Rattle.bb_script.specs.Views.{script_tree};

    ghost view = { λ s. script_tree s.script };
}

impl SpeltScript {
    /// Reads the script that a text spells, as `read_script` does.
    pub fn read(alloc: Global, text: &[u8]) -> Result<SpeltScript, ScriptError>
        ensures ok { IfOk result (λ script. script_of text.now ≡ Ok script) }
        ensures refused { IfErr result (Refuses (script_of text.now)) }
    {
        let script = read_script(alloc, text)?;
        Ok(SpeltScript { script })
    }

    /// Its steps, as they are run.
    pub fn as_script(&self) -> &Script
        ensures { script_tree result.now ≡ self.now }
    {
        &self.script
    }
}
