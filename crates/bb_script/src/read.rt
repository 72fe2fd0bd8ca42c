ghost use Rattle.std.specs.Prelude.{◌≡◌, ◌<◌, ◌⊎◌, IfOk, IfErr, Ok, Err, length};
ghost use Rattle.bb_script.specs.Descent.{RefusesScript};
ghost use Rattle.bb_script.specs.Script.{IsShortNoText, IsShortText, Refuses, script_in, script_of};
ghost use Rattle.bb_script.specs.Views.{script_tree};

use crate::keyword::is_end;
use crate::misplaced::misplaced;
use crate::reader::read_steps;
use crate::token::{Nesting, ScriptInput};
use crate::{Script, ScriptError};
use std::alloc::Global;
use std::str;

/// How many bytes a script may have.
pub const SCRIPT_LIMIT: usize = 65_536;

/// Reads a script, whose grammar docs/FORMATS.md has: the part of the Shell Command Language of
/// POSIX.1 that has simple commands, `&&`, `||`, `if` and `for`. Each refusal says where it comes.
pub fn read_script(alloc: Global, text: &[u8]) -> Result<Script, ScriptError>
    ensures ok { IfOk result (λ script. script_of text.now ≡ Ok (script_tree script)) }
    ensures refused { IfErr result (Refuses (script_of text.now)) }
    ensures too_long { 65536 < length text.now → result ≡ Err ScriptError.TooLong }
    ensures not_text { IsShortNoText text.now → result ≡ Err ScriptError.NotText }
{
    let text = as_text(text)?;
    read_text(alloc, text)
}

fn as_text(bytes: &[u8]) -> Result<&[u8], ScriptError>
    ensures ok { IfOk result (λ text. (text.now ≡ bytes.now) × IsShortText bytes.now) }
    ensures refused { IfErr result (λ e.
        ((e ≡ ScriptError.TooLong) × (65536 < length bytes.now))
        ⊎ ((e ≡ ScriptError.NotText) × IsShortNoText bytes.now)) }
{
    if bytes.len() > SCRIPT_LIMIT {
        return Err(ScriptError::TooLong);
    }
    let Ok(_) = str::from_utf8(bytes) else {
        return Err(ScriptError::NotText);
    };
    Ok(bytes)
}

// Reads a script of any length.
#[tactic(auto, using(crate::proofs::WalkLemmas::script_fresh, crate::proofs::WalkLemmas::outermost_next, crate::proofs::WalkLemmas::outermost_refusal, crate::proofs::WalkLemmas::outermost_unless_memory, crate::proofs::WalkLemmas::script_out))]
fn read_text(alloc: Global, text: &[u8]) -> Result<Script, ScriptError>
    ensures ok { IfOk result (λ script. script_in text.now ≡ Ok (script_tree script)) }
    ensures refused { IfErr result (RefusesScript (script_in text.now)) }
{
    let input = ScriptInput {
        alloc,
        total: text.len(),
    };
    let outermost = Nesting {
        level: 0,
        opened: None,
    };
    let (script, token) = read_steps(input, outermost, text)?;
    if !is_end(token.kind) {
        return Err(misplaced(outermost, &token));
    }
    Ok(script)
}
