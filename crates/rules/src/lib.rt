//! The rules of the calls on a plan: what each refuses before it reckons.
#![tactic(auto)]

ghost use Rattle.std.specs.Prelude.{Decides, IfOk, OnOk};
ghost use Rattle.records.specs.Entered.{TakenFrom};
ghost use Rattle.records.specs.Register.{seen};
ghost use Rattle.rules.specs.Faults.{PlanAnswers};
ghost use Rattle.rules.specs.Rows.{RecordsListed, draft_rows, SoundDraft, open_rows, SoundOpen, Over};

use kinds::Kind;
use records::{Entered, View, check_drafted, check_shown, check_stored};

mod entries;
mod faults;
mod reports;
mod settings;
mod switches;

pub use entries::{check_connection, check_run, check_track};
pub use faults::PlanFault;
pub use records::{CONNECTIONS, RUNS, TIME_SIZE, TRACKS};
pub use reports::{check_event, check_hold, check_release, check_report};
pub use settings::{
    check_setting, check_switch, check_turning, find_place, find_setting, place_of, setting_of,
};
pub use switches::Switch;

/// The length of the memory of setting bytes: 4,096 of orders, then 512 of connections.
pub const SETTINGS: usize = 4_608;

/// The length of the memory of shown times: two of each run.
pub const SHOWN: usize = 1_024;

fn records_listed<K: Kind>(v: View<K>) -> bool
    ensures { Decides result (RecordsListed (seen v.entry)) }
{
    v.tracks.len() == TRACKS
        && v.runs.len() == RUNS
        && v.connections.len() == CONNECTIONS
        && v.settings.len() == SETTINGS
}

/// What every call on a draft refuses first. Taken, what is entered.
pub fn check_draft<'v, K: Kind>(v: View<'v, 'v, 'v, 'v, K>) -> Result<Entered<'v, K>, PlanFault>
    ensures rows { PlanAnswers (draft_rows K.Kind.time (seen v.entry)) result }
    ensures sound { OnOk result (SoundDraft K.Kind.time (seen v.entry)) }
    ensures taken { IfOk result (TakenFrom K.Kind.time (seen v.entry)) }
{
    if !records_listed(v) {
        return Err(PlanFault::Length);
    }
    let Some(e) = check_stored(v) else {
        return Err(PlanFault::Stored);
    };
    if !check_drafted(&e.records()) {
        return Err(PlanFault::Stored);
    }
    Ok(e)
}

/// What every call on an open plan refuses first. Taken, what is entered.
pub fn check_open<'v, K: Kind>(
    v: View<'v, 'v, 'v, 'v, K>,
    shown: &[K],
) -> Result<Entered<'v, K>, PlanFault>
    ensures rows { PlanAnswers (open_rows K.Kind.time (seen v.entry) shown.now) result }
    ensures sound { OnOk result (SoundOpen K.Kind.time (seen v.entry) shown.now) }
    ensures taken { IfOk result (TakenFrom K.Kind.time (seen v.entry)) }
{
    if !records_listed(v) || shown.len() != SHOWN {
        return Err(PlanFault::Length);
    }
    let Some(e) = check_stored(v) else {
        return Err(PlanFault::Stored);
    };
    if !check_shown(shown, e.events()) {
        return Err(PlanFault::Stored);
    }
    Ok(e)
}

fn over<K: Kind>(time: K) -> bool
    ensures { Decides result (Over K.Kind.time time) }
{
    time.size() > TIME_SIZE
}
