ghost use Rattle.std.specs.Prelude.{◌≡◌, ◌↔◌, IfOk, IsSome, IsTrue, length};
ghost use Rattle.std.specs.Option.{option_map};
ghost use Rattle.bb_chooser.specs.Counting.{chosen_target, mark_good_of};
ghost use Rattle.bb_state.specs.State.{keyed_of, laid_of};
ghost use Rattle.bb_session.specs.Acting.{acts_of};
ghost use Rattle.bb_session.specs.Doing.{IsPut};
ghost use Rattle.bb_session.specs.Marking.{chosen_name, good_line, good_text};
ghost use Rattle.bb_plan.specs.Plan.{IsServed};
ghost use Rattle.bb_plan.specs.declared.plan.Work.TheVariants.{Good};

use bb_base::{Bytes, NoMemory, Text};
use bb_chooser::Chooser;
use bb_plan::Refusal;
use bb_state::State;
use bb_vars::Table;
use std::alloc::Global;

/// Marks the target that was chosen last good, in the table alone, or refuses where there is none.
pub(crate) fn mark(state: &mut State, chooser: &Chooser) -> Result<(), Refusal>
    requires served { IsServed (keyed_of state.old) (Good chooser.now) }
    ensures put { IsPut (acts_of (laid_of state.old) (Good chooser.now) state.old.table)
        state.new.table result }
    ensures backing { state.new.backing ≡ state.old.backing }
{
    if mark_table(state, chooser) {
        return Ok(());
    }
    Err(Refusal::NoGood(chooser.last_chosen(&state.table)))
}

// Gives the target that was chosen last its default attempts, in the table alone.
fn mark_table(state: &mut State, chooser: &Chooser) -> bool
    requires served { IsServed (keyed_of state.old) (Good chooser.now) }
    ensures good { IsTrue result ↔ IsSome (chosen_target chooser.now state.old.table) }
    ensures marked { state.new.table ≡ mark_good_of chooser.now state.old.table }
    ensures backing { state.new.backing ≡ state.old.backing }
{
    chooser.mark_good(&mut state.table)
}

/// The line of the target that was chosen last.
pub(crate) fn good_text(alloc: Global, chooser: &Chooser, table: &Table) -> Result<Bytes, NoMemory>
    requires { length table.now ≡ chooser.now.area_len }
    ensures { IfOk result (λ text. text ≡ good_text chooser.now table.now) }
{
    match chosen_name(chooser, table) {
        Some((name, attempts)) => good_line(alloc, name, attempts),
        None => Ok(Bytes::none(alloc)),
    }
}

fn good_line(alloc: Global, name: &Text, attempts: u32) -> Result<Bytes, NoMemory>
    ensures { IfOk result (λ line. line ≡ good_line name.now attempts) }
{
    let mut line = Bytes::none(alloc);
    let words = format!(in alloc; "good {} {attempts}\n", name.as_str())?;
    line.add(words.as_bytes())?;
    Ok(line)
}

// The name of the target that was chosen last, and the attempts that it has.
fn chosen_name<'a>(chooser: &'a Chooser, table: &Table) -> Option<(&'a Text, u32)>
    requires { length table.now ≡ chooser.now.area_len }
    ensures { option_map (λ c. (c.0.now, c.1)) result ≡ chosen_name chooser.now table.now }
{
    let place = chooser.last_chosen(table) as usize;
    let target = place.checked_sub(1)?;
    let name = chooser.name(target)?;
    Some((name, chooser.attempts(table, target)))
}
