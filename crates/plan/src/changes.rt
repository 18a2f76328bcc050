//! One change to what is stored, and the reckoning of what is then in force.
ghost use Rattle.std.specs.Prelude.{◌≡◌, ℕ, ◌<◌, [], length, MatchResult, slice_set};
ghost use Rattle.records.specs.Lent.{lists_in};
ghost use Rattle.records.specs.Register.{register_of};
ghost use Rattle.records.specs.Stored.{Stored};
ghost use Rattle.rules.specs.Rows.{RecordsListed};
ghost use Rattle.force.specs.Work.{work_lengths, SameWork};
ghost use Rattle.plan.specs.States.{memory, lists};
ghost use Rattle.plan.specs.Steps.{with_runs, with_settings};
ghost use Rattle.plan.specs.Calls.{Listed, lengths, Reckons};

use crate::states::Numbers;
use force::{Work, reckon_plan};
use kinds::Kind;
use records::{Connection, Entered, Records, Run, Track};
use rules::PlanFault;

/// Reckons what the records put in force.
pub(crate) fn put_in_force<K: Kind>(
    numbers: Numbers,
    records: Records<K>,
    times: &mut [K],
    ring: &mut [u16],
    work: &mut Work<'_, K>,
) -> Result<(), PlanFault>
    requires records { RecordsListed (memory numbers (lists_in records)) }
    requires listed { Listed (lengths (length times.old) (length ring.old) (work_lengths work.old)) }
    requires stored { Stored K.Kind.time (memory numbers (lists_in records)) }
    ensures reckons { Reckons K.Kind.time [] (register_of K.Kind.time (memory numbers (lists_in records.entry))) times.old times.new ring.old ring.new result }
    ensures work { SameWork work.old work.new }
{
    let e = Entered::of(numbers.view(records));
    reckon_plan(&e, times, ring, work)?;
    Ok(())
}

/// Puts a record in the place of another.
// Stays: tried as a plain index, and beside all that its callers know the proof of its bound didn't close.
pub(crate) fn put<T: Copy>(items: &mut [T], i: usize, item: T)
    requires { i < length items.old }
    ensures { items.new ≡ slice_set items.old i item }
{
    items[i] = item;
}

/// Puts a run in the place of another and reckons. Refused, the other is back.
pub(crate) fn replace_run<K: Kind>(
    numbers: Numbers,
    tracks: &[Track<K>],
    runs: &mut [Run<K>],
    connections: &[Connection<K>],
    settings: &[u8],
    times: &mut [K],
    ring: &mut [u16],
    work: &mut Work<'_, K>,
    r: usize,
    run: Run<K>,
) -> Result<(), PlanFault>
    requires inside { r < length runs.old }
    requires records { RecordsListed (memory numbers (lists tracks.now runs.old connections.now settings.now)) }
    requires listed { Listed (lengths (length times.old) (length ring.old) (work_lengths work.old)) }
    requires stored { Stored K.Kind.time (with_runs (memory numbers (lists tracks.now runs.old connections.now settings.now)) (slice_set runs.old r run)) }
    ensures reckons { Reckons K.Kind.time [] (register_of K.Kind.time (with_runs (memory numbers (lists tracks.now runs.old connections.now settings.now)) (slice_set runs.old r run))) times.old times.new ring.old ring.new result }
    ensures records { MatchResult result (λ _. memory numbers (lists tracks.now runs.new connections.now settings.now) ≡ with_runs (memory numbers (lists tracks.now runs.old connections.now settings.now)) (slice_set runs.old r run)) (λ _. runs.new ≡ runs.old) }
    ensures work { SameWork work.old work.new }
{
    let old = runs[r];
    put(runs, r, run);
    let records = Records {
        tracks,
        runs: &*runs,
        connections,
        settings,
    };
    match put_in_force(numbers, records, times, ring, work) {
        Ok(()) => Ok(()),
        Err(fault) => {
            // Stays: put back by hand, since a guard would put a taken run back too.
            put(runs, r, old);
            Err(fault)
        }
    }
}

/// Writes a setting and reckons. Refused, the old one is back.
pub(crate) fn replace_setting<K: Kind>(
    numbers: Numbers,
    tracks: &[Track<K>],
    runs: &[Run<K>],
    connections: &[Connection<K>],
    settings: &mut [u8],
    times: &mut [K],
    ring: &mut [u16],
    work: &mut Work<'_, K>,
    place: usize,
    setting: u8,
) -> Result<(), PlanFault>
    requires inside { place < length settings.old }
    requires records { RecordsListed (memory numbers (lists tracks.now runs.now connections.now settings.old)) }
    requires listed { Listed (lengths (length times.old) (length ring.old) (work_lengths work.old)) }
    requires stored { Stored K.Kind.time (with_settings (memory numbers (lists tracks.now runs.now connections.now settings.old)) (slice_set settings.old place setting)) }
    ensures reckons { Reckons K.Kind.time [] (register_of K.Kind.time (with_settings (memory numbers (lists tracks.now runs.now connections.now settings.old)) (slice_set settings.old place setting))) times.old times.new ring.old ring.new result }
    ensures records { MatchResult result (λ _. memory numbers (lists tracks.now runs.now connections.now settings.new) ≡ with_settings (memory numbers (lists tracks.now runs.now connections.now settings.old)) (slice_set settings.old place setting)) (λ _. settings.new ≡ settings.old) }
    ensures work { SameWork work.old work.new }
{
    let old = settings[place];
    settings[place] = setting;
    let records = Records {
        tracks,
        runs,
        connections,
        settings: &*settings,
    };
    match put_in_force(numbers, records, times, ring, work) {
        Ok(()) => Ok(()),
        Err(fault) => {
            // Stays: put back by hand, since a guard would put a taken setting back too.
            settings[place] = old;
            Err(fault)
        }
    }
}
