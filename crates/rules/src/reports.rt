//! What a call on an event, a report or a hold refuses.
ghost use Rattle.std.specs.Prelude.{◌%◌, Decides};
ghost use Rattle.records.specs.Lent.{lists_in, register_lent};
ghost use Rattle.rules.specs.Faults.{PlanAnswers};
ghost use Rattle.rules.specs.Rows.{event_rows, Untimely, report_rows, hold_rows, release_rows};

use crate::{PlanFault, over};
use kinds::Kind;
use records::{Records, Run};

/// What naming an event refuses.
pub fn check_event<K: Kind>(records: &Records<K>, event: u16) -> Result<(), PlanFault>
    ensures { PlanAnswers (event_rows K.Kind.time (register_lent K.Kind.time (lists_in records.now)) event) result }
{
    if event as usize / 2 >= records.runs.len() {
        return Err(PlanFault::Unknown { place: event });
    }
    Ok(())
}

// Whether a report of an event of its run does not fit the other one.
fn untimely<K: Kind>(run: Run<K>, event: u16, at: K) -> bool
    ensures { Decides result (Untimely K.Kind.time run (event % 2) at) }
{
    if event % 2 == 0 {
        run.arrived.is_some()
    } else {
        run.departed.is_none_or(|departed| !departed.compare(at))
    }
}

/// What reporting an event refuses.
pub fn check_report<K: Kind>(records: &Records<K>, event: u16, at: K) -> Result<(), PlanFault>
    ensures { PlanAnswers (report_rows K.Kind.time (register_lent K.Kind.time (lists_in records.now)) event at) result }
{
    check_event(records, event)?;
    if over(at) {
        return Err(PlanFault::Time);
    }
    if untimely(records.run(event as usize / 2), event, at) {
        return Err(PlanFault::Report);
    }
    Ok(())
}

/// What holding a run refuses.
pub fn check_hold<K: Kind>(records: &Records<K>, run: u16, until: K) -> Result<(), PlanFault>
    ensures { PlanAnswers (hold_rows K.Kind.time (register_lent K.Kind.time (lists_in records.now)) run until) result }
{
    if run as usize >= records.runs.len() {
        return Err(PlanFault::Unknown { place: run });
    }
    if over(until) {
        return Err(PlanFault::Time);
    }
    if records.run(run as usize).hold.is_some() {
        return Err(PlanFault::Already);
    }
    if records.run(run as usize).departed.is_some() {
        return Err(PlanFault::Departed);
    }
    Ok(())
}

/// What releasing a run by a slip refuses.
pub fn check_release<K: Kind>(
    records: &Records<K>,
    plan: u32,
    slip_plan: u32,
    slip_run: u16,
) -> Result<(), PlanFault>
    ensures { PlanAnswers (release_rows K.Kind.time (register_lent K.Kind.time (lists_in records.now)) plan slip_plan slip_run) result }
{
    let run = slip_run as usize;
    if slip_plan != plan || run >= records.runs.len() || records.run(run).hold.is_none() {
        return Err(PlanFault::Slip);
    }
    Ok(())
}
