//! What the calls on a draft refuse.
ghost use Rattle.std.specs.Prelude.{◌≡◌, ◌+◌, ◌<◌, ◌≤◌, length, IfOk, OnOk};
ghost use Rattle.network.specs.Refusals.{Passed};
ghost use Rattle.records.specs.Lent.{lists_in};
ghost use Rattle.records.specs.Entered.{TakenFrom};
ghost use Rattle.records.specs.Register.{register_of};
ghost use Rattle.rules.specs.Faults.{PlanAnswers};
ghost use Rattle.rules.specs.Rows.{SoundDraft, draft_rows, setting_place, switch_rows};
ghost use Rattle.plan.specs.States.{memory};
ghost use Rattle.plan.specs.Steps.{orders_entered, orders_added};
ghost use Rattle.plan.specs.Drafting.{track_call_rows, run_call_rows, connection_call_rows, preset_call_rows, setting_call_rows};

use crate::states::Numbers;
use kinds::Kind;
use records::{Connection, Entered, Records, Run, Track};
use rules::{
    PlanFault, Switch, check_connection, check_draft, check_run, check_setting, check_track,
};

/// What every call on a draft refuses. Taken, what is entered of it.
pub(crate) fn admit<'v, K: Kind>(
    numbers: Numbers,
    records: &Records<'v, 'v, 'v, 'v, K>,
) -> Result<Entered<'v, K>, PlanFault>
    ensures rows { PlanAnswers (draft_rows K.Kind.time (memory numbers (lists_in records.now))) result }
    ensures sound { let m = memory numbers (lists_in records.now) in IfOk result (λ e. TakenFrom K.Kind.time m e × SoundDraft K.Kind.time m) }
{
    check_draft(numbers.view(*records))
}

/// What entering a track refuses. Taken, there is room for it.
pub(crate) fn admit_track<K: Kind>(
    numbers: Numbers,
    records: &Records<K>,
    track: Track<K>,
) -> Result<(), PlanFault>
    ensures rows { PlanAnswers (track_call_rows K.Kind.time (memory numbers (lists_in records.now)) track) result }
    ensures room { OnOk result (SoundDraft K.Kind.time (memory numbers (lists_in records.now)) × (numbers.tracks < 64)) }
{
    let e = admit(numbers, records)?;
    check_track(&e.records(), track)
}

/// What entering a run refuses. Taken, there is room for it and for its orders.
pub(crate) fn admit_run<K: Kind>(
    numbers: Numbers,
    records: &Records<K>,
    run: Run<K>,
) -> Result<(), PlanFault>
    ensures rows { PlanAnswers (run_call_rows K.Kind.time (memory numbers (lists_in records.now)) run) result }
    ensures room { let m = memory numbers (lists_in records.now) in OnOk result (SoundDraft K.Kind.time m × ((numbers.runs < 512) × ((run.track < 64) × (orders_entered K.Kind.time m + orders_added K.Kind.time m run.track ≤ 4096)))) }
{
    let e = admit(numbers, records)?;
    check_run(&e.records(), run)
}

/// What entering a connection refuses. Taken, there is room for it.
pub(crate) fn admit_connection<K: Kind>(
    numbers: Numbers,
    records: &Records<K>,
    connection: Connection<K>,
) -> Result<(), PlanFault>
    ensures rows { PlanAnswers (connection_call_rows K.Kind.time (memory numbers (lists_in records.now)) connection) result }
    ensures room { OnOk result (SoundDraft K.Kind.time (memory numbers (lists_in records.now)) × (numbers.connections < 512)) }
{
    let e = admit(numbers, records)?;
    check_connection(&e.records(), connection)
}

/// What giving a switch of a draft a setting refuses; taken, the place of its byte.
pub(crate) fn admit_preset<K: Kind>(
    numbers: Numbers,
    records: &Records<K>,
    switch: Switch,
    setting: u8,
) -> Result<usize, PlanFault>
    ensures rows { PlanAnswers (preset_call_rows K.Kind.time (memory numbers (lists_in records.now)) switch setting) result }
    ensures known { IfOk result (λ p. (p ≡ setting_place K.Kind.time (register_of K.Kind.time (memory numbers (lists_in records.now))) switch) × (p < length records.now.settings.now)) }
{
    let e = admit(numbers, records)?;
    check_setting(&e, switch, setting)
}
