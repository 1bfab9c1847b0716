//! What lines take for themselves is added, and each line.
ghost use Rattle.std.specs.Prelude.{◌≡◌, ◌≤◌, OnOk};
ghost use Rattle.scenario.specs.Readings.{Becomes};
ghost use Rattle.run_script.specs.Above.{added, fate_added, fault_added, stop_added};
ghost use Rattle.run_script.specs.InForm.{IsLine};
ghost use Rattle.run_script.specs.Taken.{IsTaken};

use crate::above::Above;
use crate::lines::{FateLine, FaultLine, StopLine};
use crate::read::RunLine;
use crate::taken::{Taken, take, take_calls};
use scenario::WordError;

/// Adds what becomes of attempts, each of which stands once.
fn add_fate(above: &mut Above, taken: &mut Taken, line: FateLine) -> Result<(), WordError>
    requires order { line.first ≤ line.last }
    requires taken { IsTaken taken.old above.old.lines }
    ensures read { Becomes result above.new (fate_added above.old line) }
    ensures taken { OnOk result (IsTaken taken.new above.new.lines) }
{
    take(
        &mut taken.attempts,
        line.node.number(),
        line.first,
        line.last,
    )?;
    above.lines.fates.push(line)?;
    Ok(())
}

/// Adds a stop, at a write that stands once.
fn add_stop(above: &mut Above, taken: &mut Taken, line: StopLine) -> Result<(), WordError>
    requires taken { IsTaken taken.old above.old.lines }
    ensures read { Becomes result above.new (stop_added above.old line) }
    ensures taken { OnOk result (IsTaken taken.new above.new.lines) }
{
    take(&mut taken.stops, line.disk, line.write, line.write)?;
    above.lines.stops.push(line)?;
    Ok(())
}

/// Adds failing calls, each of which stands once.
fn add_fault(above: &mut Above, taken: &mut Taken, line: FaultLine) -> Result<(), WordError>
    requires order { line.first ≤ line.last }
    requires taken { IsTaken taken.old above.old.lines }
    ensures read { Becomes result above.new (fault_added above.old line) }
    ensures taken { OnOk result (IsTaken taken.new above.new.lines) }
{
    take_calls(taken, &line)?;
    above.lines.faults.push(line)?;
    Ok(())
}

/// Adds what a line says.
pub fn add(
    above: &mut Above,
    taken: &mut Taken,
    number: u64,
    line: RunLine,
) -> Result<(), WordError>
    requires form { IsLine line }
    requires taken { IsTaken taken.old above.old.lines }
    ensures read { Becomes result above.new (added number above.old line) }
    ensures taken { OnOk result (IsTaken taken.new above.new.lines) }
{
    match line {
        RunLine::Shared(line) => above.add_shared(number, line),
        RunLine::Setup(done) => above.add_client(number, true, done),
        RunLine::Stop(line) => add_stop(above, taken, line),
        RunLine::Fault(line) => add_fault(above, taken, line),
        RunLine::Campaign(k) => above.add_campaign(number, k),
        RunLine::Cancel(point) => above.add_cancel(number, point),
        RunLine::Fate(line) => add_fate(above, taken, line),
    }
}
