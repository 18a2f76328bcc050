//! Whether what is stored can stand.
ghost use Rattle.std.specs.Prelude.{◌≡◌, ℕ, ◌+◌, ◌≤◌, length, Decides, All, MatchOption};
ghost use Rattle.records.specs.Entered.{TakenFrom};
ghost use Rattle.records.specs.Lent.{lists_in, register_lent};
ghost use Rattle.records.specs.Register.{seen, register_from};
ghost use Rattle.records.specs.Stored.{Limits, Duration, SizedIfAny, TrackStored, Scheduled, Linked, Reported, RunStored, ConnectionStored, TracksStored, RunsStored, ConnectionsStored, FlagsStored, Stored, Unused, Drafted, Shown};

use crate::places::count_orders;
use crate::{
    CONNECTIONS, Connection, DURATION_SIZE, Entered, ORDERS, PENALTY, RUNS, Records, Run,
    SHOWN_SIZE, TIME_SIZE, TRACKS, Track, View, WEIGHT, entered,
};
use kinds::Kind;

/// Whether a duration is within its size, and not before nothing.
pub fn duration_fits<K: Kind>(d: K) -> bool
    ensures { Decides result (Duration K.Kind.time d) }
{
    d.size() <= DURATION_SIZE && K::nothing().compare(d)
}

fn sized_if_any<K: Kind>(time: Option<K>) -> bool
    ensures { Decides result (SizedIfAny K.Kind.time time) }
{
    time.is_none_or(|x| x.size() <= TIME_SIZE)
}

fn track_stored<K: Kind>(track: Track<K>) -> bool
    ensures { Decides result (TrackStored K.Kind.time track) }
{
    duration_fits(track.headway) && duration_fits(track.meeting) && track.penalty <= PENALTY
}

fn run_scheduled<K: Kind>(run: Run<K>) -> bool
    ensures { Decides result (Scheduled K.Kind.time run) }
{
    run.departure.size() <= TIME_SIZE
        && run.arrival.size() <= TIME_SIZE
        && duration_fits(run.running)
        && duration_fits(run.dwell)
}

fn run_linked<K: Kind>(tracks: usize, i: usize, run: Run<K>) -> bool
    ensures { Decides result (Linked tracks i run) }
{
    run.predecessor.is_none_or(|p| (p as usize) < i)
        && (run.track as usize) < tracks
        && run.weight <= WEIGHT
        && run.direction <= 1
}

fn run_reported<K: Kind>(run: Run<K>) -> bool
    ensures { Decides result (Reported K.Kind.time run) }
{
    let after = match (run.departed, run.arrived) {
        (_, None) => true,
        (None, Some(_)) => false,
        (Some(departed), Some(arrived)) => departed.compare(arrived),
    };
    sized_if_any(run.departed) && sized_if_any(run.arrived) && sized_if_any(run.hold) && after
}

fn run_stored<K: Kind>(tracks: usize, i: usize, run: Run<K>) -> bool
    ensures { Decides result (RunStored K.Kind.time tracks i run) }
{
    run_linked(tracks, i, run) && run_scheduled(run) && run_reported(run)
}

fn connection_stored<K: Kind>(runs: usize, c: Connection<K>) -> bool
    ensures { Decides result (ConnectionStored K.Kind.time runs c) }
{
    (c.feeder as usize) < runs
        && (c.onward as usize) < runs
        && c.feeder != c.onward
        && c.penalty <= PENALTY
        && duration_fits(c.time)
}

fn tracks_stored<K: Kind>(tracks: &[Track<K>]) -> bool
    ensures { Decides result (TracksStored K.Kind.time tracks.now) }
{
    tracks.iter().all(|track| track_stored(*track))
}

fn runs_stored<K: Kind>(tracks: usize, runs: &[Run<K>]) -> bool
    ensures { Decides result (RunsStored K.Kind.time tracks runs.now) }
{
    // Stays: as `enumerate().all(..)` it was tried, and the proof didn't close.
    for (r, run) in runs.iter().enumerate() {
        if !run_stored(tracks, r, *run) {
            return false;
        }
    }
    true
}

fn connections_stored<K: Kind>(runs: usize, connections: &[Connection<K>]) -> bool
    ensures { Decides result (ConnectionsStored K.Kind.time runs connections.now) }
{
    connections.iter().all(|c| connection_stored(runs, *c))
}

// Whether each of `count` bytes from `start` on is 0 or 1.
fn flags_stored(settings: &[u8], start: usize, count: usize) -> bool
    requires { start + count ≤ length settings.now }
    ensures { Decides result (FlagsStored settings.now start count) }
{
    settings[start..start + count].iter().all(|flag| *flag <= 1)
}

// Whether records keep the limits, with the bytes of their settings.
fn limits_kept<K: Kind>(r: Records<K>) -> bool
    requires few { (length r.tracks.now ≤ 64) × ((length r.runs.now ≤ 512) × ((length r.connections.now ≤ 512) × (length r.settings.now ≡ 4608))) }
    ensures { Decides result (Limits K.Kind.time (register_from K.Kind.time r.entry.tracks.now r.entry.runs.now r.entry.connections.now r.entry.settings.now)) }
{
    if !tracks_stored(r.tracks) {
        return false;
    }
    if !runs_stored(r.tracks.len(), r.runs) {
        return false;
    }
    if !connections_stored(r.runs.len(), r.connections) {
        return false;
    }
    let orders = count_orders(r.runs) as usize;
    if orders > ORDERS {
        return false;
    }
    flags_stored(r.settings, 0, orders) && flags_stored(r.settings, ORDERS, r.connections.len())
}

/// What is entered of a view that is stored: counts, records and settings are such as the calls take. What lies past the entered is
/// free. None exactly if it is not stored.
pub fn check_stored<'v, K: Kind>(v: View<'v, 'v, 'v, 'v, K>) -> Option<Entered<'v, K>>
    requires { (length v.tracks.now ≡ 64) × ((length v.runs.now ≡ 512) × ((length v.connections.now ≡ 512) × (length v.settings.now ≡ 4608))) }
    ensures { MatchOption result (¬ (Stored K.Kind.time (seen v.entry))) (TakenFrom K.Kind.time (seen v.entry)) }
{
    if v.track_count > TRACKS || v.run_count > RUNS || v.connection_count > CONNECTIONS {
        return None;
    }
    if !limits_kept(entered(v)) {
        return None;
    }
    Some(Entered::of(v))
}

fn run_unused<K: Kind>(run: Run<K>) -> bool
    ensures { Decides result (Unused run) }
{
    run.departed.is_none() && run.arrived.is_none() && run.hold.is_none()
}

fn runs_unused<K: Kind>(runs: &[Run<K>]) -> bool
    ensures { Decides result (All (λ run. Unused run) runs.now) }
{
    runs.iter().all(|run| run_unused(*run))
}

/// Whether no entered run is reported or held.
pub fn check_drafted<K: Kind>(records: &Records<K>) -> bool
    ensures { Decides result (Drafted K.Kind.time (register_lent K.Kind.time (lists_in records.now))) }
{
    runs_unused(records.runs)
}

// Stays: a slice of these times alone is no plainer, since the promises above speak of the whole memory and its first events.
/// Whether the times shown of the first `events` events are within the size that a reckoning can give.
pub fn check_shown<K: Kind>(shown: &[K], events: usize) -> bool
    requires { events ≤ length shown.now }
    ensures { Decides result (Shown K.Kind.time shown.now events) }
{
    shown[..events].iter().all(|time| time.size() <= SHOWN_SIZE)
}
