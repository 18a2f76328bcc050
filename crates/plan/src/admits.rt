//! What the calls on an open plan refuse before they reckon.
ghost use Rattle.std.specs.Prelude.{◌≡◌, ℕ, ◌/◌, ◌<◌, length, IfOk, Some, None, OnOk};
ghost use Rattle.records.specs.Lent.{lists_in};
ghost use Rattle.records.specs.Entered.{TakenFrom};
ghost use Rattle.records.specs.Register.{register_of};
ghost use Rattle.force.specs.Work.{work_lengths};
ghost use Rattle.rules.specs.Faults.{PlanAnswers};
ghost use Rattle.rules.specs.Rows.{setting_place, SoundOpen, open_rows};
ghost use Rattle.plan.specs.States.{memory};
ghost use Rattle.plan.specs.Steps.{report_memory, hold_memory, switch_memory};
ghost use Rattle.plan.specs.Calls.{Listed, lengths, length_rows, open_call_rows, report_call_rows, hold_call_rows, release_call_rows, turning_call_rows, Ready};

use crate::states::Numbers;
use force::Work;
use kinds::Kind;
use records::{Entered, Records};
use rules::{
    PlanFault, Switch, check_hold, check_open, check_release, check_report, check_turning,
};

/// What every call refuses that reckons: a memory that is written and has not its listed length.
pub(crate) fn check_work<K: Kind>(
    written: usize,
    ring: usize,
    work: &Work<'_, K>,
) -> Result<(), PlanFault>
    ensures rows { PlanAnswers (length_rows (lengths written ring (work_lengths work.now))) result }
    ensures listed { OnOk result (Listed (lengths written ring (work_lengths work.now))) }
{
    if written != 1_024 || ring != 1_024 || !work.is_listed() {
        return Err(PlanFault::Length);
    }
    Ok(())
}

/// What every call on an open plan refuses. Taken, what is entered of it.
pub(crate) fn admit_shown<'v, K: Kind>(
    numbers: Numbers,
    records: &Records<'v, 'v, 'v, 'v, K>,
    times: &[K],
) -> Result<Entered<'v, K>, PlanFault>
    ensures rows { PlanAnswers (open_rows K.Kind.time (memory numbers (lists_in records.now)) times.now) result }
    ensures sound { let m = memory numbers (lists_in records.now) in IfOk result (λ e. TakenFrom K.Kind.time m e × SoundOpen K.Kind.time m times.now) }
{
    check_open(numbers.view(*records), times)
}

// What every call refuses that reckons an open plan, where `written` is the length of the memory that the times are to be written
// to. Taken, what is entered of the plan.
fn admit<'v, K: Kind>(
    numbers: Numbers,
    records: &Records<'v, 'v, 'v, 'v, K>,
    times: &[K],
    written: usize,
    ring: usize,
    work: &Work<'_, K>,
) -> Result<Entered<'v, K>, PlanFault>
    ensures rows { PlanAnswers (open_call_rows K.Kind.time (lengths written ring (work_lengths work.now)) (memory numbers (lists_in records.now)) times.now) result }
    ensures listed { OnOk result (Listed (lengths written ring (work_lengths work.now))) }
    ensures sound { let m = memory numbers (lists_in records.now) in IfOk result (λ e. TakenFrom K.Kind.time m e × SoundOpen K.Kind.time m times.now) }
{
    check_work(written, ring, work)?;
    admit_shown(numbers, records, times)
}

/// What a report refuses before it reckons.
pub(crate) fn admit_report<K: Kind>(
    numbers: Numbers,
    records: &Records<K>,
    times: &[K],
    ring: usize,
    work: &Work<'_, K>,
    event: u16,
    at: K,
) -> Result<(), PlanFault>
    ensures rows { PlanAnswers (report_call_rows K.Kind.time (lengths (length times.now) ring (work_lengths work.now)) (memory numbers (lists_in records.now)) times.now event at) result }
    ensures ready { let m = memory numbers (lists_in records.now) in OnOk result ((event / 2 < length records.now.runs.now) × Ready K.Kind.time (lengths (length times.now) ring (work_lengths work.now)) m (report_memory K.Kind.time m event at)) }
{
    let e = admit(numbers, records, times, times.len(), ring, work)?;
    check_report(&e.records(), event, at)
}

/// What a hold refuses before it reckons.
pub(crate) fn admit_hold<K: Kind>(
    numbers: Numbers,
    records: &Records<K>,
    times: &[K],
    ring: usize,
    work: &Work<'_, K>,
    run: u16,
    until: K,
) -> Result<(), PlanFault>
    ensures rows { PlanAnswers (hold_call_rows K.Kind.time (lengths (length times.now) ring (work_lengths work.now)) (memory numbers (lists_in records.now)) times.now run until) result }
    ensures ready { let m = memory numbers (lists_in records.now) in OnOk result ((run < length records.now.runs.now) × Ready K.Kind.time (lengths (length times.now) ring (work_lengths work.now)) m (hold_memory K.Kind.time m run (Some until))) }
{
    let e = admit(numbers, records, times, times.len(), ring, work)?;
    check_hold(&e.records(), run, until)
}

/// What a release refuses before it reckons.
pub(crate) fn admit_release<K: Kind>(
    numbers: Numbers,
    records: &Records<K>,
    times: &[K],
    ring: usize,
    work: &Work<'_, K>,
    slip_plan: u32,
    slip_run: u16,
) -> Result<(), PlanFault>
    ensures rows { PlanAnswers (release_call_rows K.Kind.time (lengths (length times.now) ring (work_lengths work.now)) (memory numbers (lists_in records.now)) times.now numbers.number slip_plan slip_run) result }
    ensures ready { let m = memory numbers (lists_in records.now) in OnOk result ((slip_run < length records.now.runs.now) × Ready K.Kind.time (lengths (length times.now) ring (work_lengths work.now)) m (hold_memory K.Kind.time m slip_run None)) }
{
    let e = admit(numbers, records, times, times.len(), ring, work)?;
    check_release(&e.records(), numbers.number, slip_plan, slip_run)
}

/// What turning a setting refuses before it reckons; taken, the place of its byte. `written` is the length of the memory that the
/// times are to be written to.
pub(crate) fn admit_turning<K: Kind>(
    numbers: Numbers,
    records: &Records<K>,
    times: &[K],
    written: usize,
    ring: usize,
    work: &Work<'_, K>,
    switch: Switch,
    setting: u8,
) -> Result<usize, PlanFault>
    ensures rows { PlanAnswers (turning_call_rows K.Kind.time (lengths written ring (work_lengths work.now)) (memory numbers (lists_in records.now)) times.now switch setting) result }
    ensures ready { let m = memory numbers (lists_in records.now) in IfOk result (λ p. (p ≡ setting_place K.Kind.time (register_of K.Kind.time m) switch) × (p < length records.now.settings.now) × Ready K.Kind.time (lengths written ring (work_lengths work.now)) m (switch_memory K.Kind.time m switch setting)) }
{
    let e = admit(numbers, records, times, written, ring, work)?;
    check_turning(&e, switch, setting)
}
