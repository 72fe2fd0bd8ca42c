ghost use Rattle.std.specs.Prelude.{◌≡◌, ◌++◌, ◌∷◌, [], OnOk, IfErr, Some, None, map};
ghost use Rattle.bb_script.specs.Tree.{choice_tree, command_of_words, repeat, steps_tree};
ghost use Rattle.bb_script.specs.Views.{branch_pair, command_tree, if_tree, loop_tree, step_pair};
ghost use Rattle.bb_script.specs.Views.{steps_in};
ghost use Rattle.bb_script.specs.Words.{word_atoms};

use crate::token::LoopStart;
use crate::{
    Choice, ForLoop, Otherwise, Script, ScriptBranch, ScriptCommand, ScriptError, ScriptStep, When,
};

pub(crate) fn script_of_steps(steps: Vec<ScriptStep>) -> Script
    ensures { steps_in result ≡ map step_pair steps.items }
{
    Script { steps }
}

pub(crate) fn add_step(
    steps: &mut Vec<ScriptStep>,
    when: When,
    command: ScriptCommand,
) -> Result<(), ScriptError>
    ensures ok { OnOk result (map step_pair steps.new.items
        ≡ map step_pair steps.old.items ++ (when, command_tree command) ∷ []) }
    ensures memory { IfErr result (λ e. e ≡ ScriptError.NoMemory) }
{
    let step = ScriptStep { when, command };
    steps.push(step)?;
    Ok(())
}

pub(crate) fn add_branch(
    branches: &mut Vec<ScriptBranch>,
    test: Script,
    body: Script,
) -> Result<(), ScriptError>
    ensures ok { OnOk result (map branch_pair branches.new.items
        ≡ map branch_pair branches.old.items
        ++ (steps_tree (steps_in test), steps_tree (steps_in body)) ∷ []) }
    ensures memory { IfErr result (λ e. e ≡ ScriptError.NoMemory) }
{
    let branch = ScriptBranch { test, body };
    branches.push(branch)?;
    Ok(())
}

pub(crate) fn without_else(branches: Vec<ScriptBranch>) -> Choice
    ensures { if_tree result ≡ choice_tree (map branch_pair branches.items) None }
{
    let other = Otherwise::Nothing;
    Choice { branches, other }
}

pub(crate) fn with_else(branches: Vec<ScriptBranch>, steps: Script) -> Choice
    ensures { if_tree result
        ≡ choice_tree (map branch_pair branches.items) (Some (steps_tree (steps_in steps))) }
{
    let other = Otherwise::Else(steps);
    Choice { branches, other }
}

pub(crate) fn with_loop_body(start: LoopStart, body: Script) -> ForLoop
    ensures { loop_tree result ≡ repeat start.name.items (map word_atoms start.words.items)
        (steps_tree (steps_in body)) }
{
    let LoopStart {
        outside: _,
        name,
        words,
    } = start;
    ForLoop { name, words, body }
}
