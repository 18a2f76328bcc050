//! What entering a record refuses.
ghost use Rattle.std.specs.Prelude.{◌≡◌, ◌<◌, ◌≤◌, ◌⊎◌, length, Decides};
ghost use Rattle.records.specs.Lent.{lists_in, register_lent};
ghost use Rattle.records.specs.Records.{track_of};
ghost use Rattle.records.specs.Places.{count};
ghost use Rattle.records.specs.Stored.{Limits};
ghost use Rattle.rules.specs.Faults.{PlanAnswers};
ghost use Rattle.rules.specs.Rows.{track_rows, orders_with, run_rows, connection_rows};

use crate::{PlanFault, over};
use kinds::Kind;
use records::{
    CONNECTIONS, Connection, ORDERS, PENALTY, RUNS, Records, Run, TRACKS, Track, WEIGHT,
    count_orders, duration_fits,
};

/// What entering a track refuses.
pub fn check_track<K: Kind>(records: &Records<K>, track: Track<K>) -> Result<(), PlanFault>
    ensures { PlanAnswers (track_rows K.Kind.time (register_lent K.Kind.time (lists_in records.now)) track) result }
{
    if !duration_fits(track.headway) || !duration_fits(track.meeting) {
        return Err(PlanFault::Duration);
    }
    if records.tracks.len() >= TRACKS {
        return Err(PlanFault::Count);
    }
    if track.penalty > PENALTY {
        return Err(PlanFault::Range);
    }
    Ok(())
}

// How many of the runs are on the track.
pub(crate) fn count_on<K: Kind>(runs: &[Run<K>], track: u16) -> usize
    ensures { result ≡ count (track_of K.Kind.time runs.now) track (length runs.now) }
{
    runs.iter().filter(|run| run.track == track).count()
}

// Whether one more run on the track passes the number of runs or of orders.
fn too_many<K: Kind>(records: &Records<K>, track: u16) -> bool
    requires { Limits K.Kind.time (register_lent K.Kind.time (lists_in records.now)) }
    ensures { Decides result ((512 ≤ length records.now.runs.now) ⊎ (4096 < orders_with K.Kind.time (register_lent K.Kind.time (lists_in records.now)) track)) }
{
    records.runs.len() >= RUNS
        || count_orders(records.runs) as usize + count_on(records.runs, track) > ORDERS
}

/// What entering a run refuses, where what is entered keeps the limits.
pub fn check_run<K: Kind>(records: &Records<K>, run: Run<K>) -> Result<(), PlanFault>
    requires { Limits K.Kind.time (register_lent K.Kind.time (lists_in records.now)) }
    ensures { PlanAnswers (run_rows K.Kind.time (register_lent K.Kind.time (lists_in records.now)) run) result }
{
    if run.track as usize >= records.tracks.len() {
        return Err(PlanFault::Unknown { place: run.track });
    }
    match run.predecessor {
        Some(place) if place as usize >= records.runs.len() => {
            return Err(PlanFault::Unknown { place });
        }
        _ => {}
    }
    if over(run.departure) || over(run.arrival) {
        return Err(PlanFault::Time);
    }
    if !duration_fits(run.running) || !duration_fits(run.dwell) {
        return Err(PlanFault::Duration);
    }
    if too_many(records, run.track) {
        return Err(PlanFault::Count);
    }
    if run.weight > WEIGHT || run.direction > 1 {
        return Err(PlanFault::Range);
    }
    Ok(())
}

/// What entering a connection refuses.
pub fn check_connection<K: Kind>(
    records: &Records<K>,
    connection: Connection<K>,
) -> Result<(), PlanFault>
    ensures { PlanAnswers (connection_rows K.Kind.time (register_lent K.Kind.time (lists_in records.now)) connection) result }
{
    let Connection { feeder, onward, .. } = connection;
    if feeder as usize >= records.runs.len() {
        return Err(PlanFault::Unknown { place: feeder });
    }
    if onward as usize >= records.runs.len() || feeder == onward {
        return Err(PlanFault::Unknown { place: onward });
    }
    if !duration_fits(connection.time) {
        return Err(PlanFault::Duration);
    }
    if records.connections.len() >= CONNECTIONS {
        return Err(PlanFault::Count);
    }
    if connection.penalty > PENALTY {
        return Err(PlanFault::Range);
    }
    Ok(())
}
