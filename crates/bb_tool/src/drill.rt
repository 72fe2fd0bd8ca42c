ghost use Rattle.std.specs.Prelude.{◌≡◌, ◌++◌, IfErr, IfOk, OnOk, decimal};
ghost use Rattle.bb_plan.specs.declared.refusal.Refusal.TheVariants as refusals;
ghost use Rattle.bb_session.specs.DrillLine.{drill_line};
ghost use Rattle.bb_tool.specs.Drilling.{IsDrillReport};

use bb_base::{Bytes, NoMemory};
use bb_drill::{DrillCounts, drill};
use bb_drill_sessions::DrillSessions;
use bb_plan::Refusal;
use bb_session::Report;
use bb_words::DrillNumbers;
use std::alloc::Global;

/// Runs a drill of the program's own sessions on a board in memory, and reports what it counted.
pub(crate) fn drill_report(alloc: Global, numbers: DrillNumbers) -> Result<Report, Refusal>
    ensures ok { IfOk result (IsDrillReport numbers) }
    ensures refused { IfErr result (λ refusal. refusal ≡ refusals.NoMemory) }
{
    let counts = drill(alloc, numbers.number, numbers.count, &mut DrillSessions)?;
    Ok(Report::done(drill_line(alloc, counts)?))
}

fn drill_line(alloc: Global, counts: DrillCounts) -> Result<Bytes, NoMemory>
    ensures { IfOk result (λ line. line ≡ drill_line counts) }
{
    let mut line = Bytes::none(alloc);
    add_count(alloc, &mut line, "sessions ", u64::from(counts.sessions))?;
    add_count(alloc, &mut line, " cuts ", u64::from(counts.cuts))?;
    add_count(alloc, &mut line, " decays ", u64::from(counts.decays))?;
    add_count(alloc, &mut line, " programs ", counts.programs)?;
    add_count(alloc, &mut line, " erases ", counts.erases)?;
    add_count(alloc, &mut line, " starts ", u64::from(counts.starts))?;
    add_count(alloc, &mut line, " wrong ", u64::from(counts.wrong))?;
    line.add(b"\n")?;
    Ok(line)
}

// Adds a count after its name.
fn add_count(alloc: Global, line: &mut Bytes, name: &str, count: u64) -> Result<(), NoMemory>
    ensures { OnOk result (line.new ≡ line.old ++ name.now ++ decimal count) }
{
    line.add(name.as_bytes())?;
    let digits = format!(in alloc; "{count}")?;
    line.add(digits.as_bytes())
}
