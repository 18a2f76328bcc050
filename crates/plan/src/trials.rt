//! Trying a setting out.
ghost use Rattle.std.specs.Prelude.{◌≡◌, ℕ, ◌<◌, [], length, IfOk, slice_set};
ghost use Rattle.network.specs.Reckoning.{at as time_at};
ghost use Rattle.records.specs.Register.{register_of};
ghost use Rattle.records.specs.Stored.{Stored};
ghost use Rattle.rules.specs.Rows.{RecordsListed};
ghost use Rattle.force.specs.Work.{work_lengths, SameWork};
ghost use Rattle.cost.specs.Cost.{delay_cost_lem};
ghost use Rattle.plan.specs.States.{memory, lists};
ghost use Rattle.plan.specs.Steps.{switch_memory};
ghost use Rattle.plan.specs.Calls.{Listed, lengths, turning_call_rows, Reckons};

use crate::Open;
use crate::admits::admit_turning;
use crate::changes::put_in_force;
use crate::states::Numbers;
use cost::delay_cost;
use force::Work;
use kinds::Kind;
use records::{Connection, Entered, Records, Run, Track};
use rules::{PlanFault, Switch};

// The setting bytes with one of them switched. Dropped, the old byte is back.
struct Switched<'a> {
    settings: &'a mut [u8],
    place: usize,
    old: u8,
}

impl Switched<'_> {
    fn bytes(&self) -> &[u8]
        ensures { result.now ≡ self.entry.now.settings.now }
    {
        self.settings
    }
}

impl Drop for Switched<'_> {
    fn drop(self)
        requires { self.place < length self.settings.now }
        ensures { self.exit.0.now ≡ slice_set self.entry.settings.now self.entry.place self.entry.old }
    {
        self.settings[self.place] = self.old;
        let Switched {
            settings: _,
            place: _,
            old: _,
        } = self;
    }
}

// Reckons with one setting changed, into trial memory, and counts the cost. The setting is back on every way out.
// Stays: each list is lent by itself; tried with one lent struct, and where its fields are lent to be read and to be written the proof didn't close.
fn try_setting<K: Kind>(
    numbers: Numbers,
    tracks: &[Track<K>],
    runs: &[Run<K>],
    connections: &[Connection<K>],
    settings: &mut [u8],
    trial: &mut [K],
    ring: &mut [u16],
    work: &mut Work<'_, K>,
    place: usize,
    setting: u8,
) -> Result<u64, PlanFault>
    requires inside { place < length settings.old }
    requires records { RecordsListed (memory numbers (lists tracks.now runs.now connections.now settings.old)) }
    requires listed { Listed (lengths (length trial.old) (length ring.old) (work_lengths work.old)) }
    requires stored { Stored K.Kind.time (memory numbers (lists tracks.now runs.now connections.now (slice_set settings.old place setting))) }
    ensures reckons { Reckons K.Kind.time [] (register_of K.Kind.time (memory numbers (lists tracks.now runs.now connections.now (slice_set settings.old place setting)))) trial.old trial.new ring.old ring.new result }
    ensures cost { IfOk result (λ n. n ≡ delay_cost_lem K.Kind.time (register_of K.Kind.time (memory numbers (lists tracks.now runs.now connections.now (slice_set settings.old place setting)))) (time_at K.Kind.time trial.new)) }
    ensures records { settings.new ≡ settings.old }
    ensures work { SameWork work.old work.new }
{
    let old = settings[place];
    settings[place] = setting;
    let switched = Switched {
        settings,
        place,
        old,
    };
    let records = Records {
        tracks,
        runs,
        connections,
        settings: switched.bytes(),
    };
    put_in_force(numbers, records, trial, ring, work)?;
    let e = Entered::of(numbers.view(records));
    Ok(delay_cost(&e, trial, work.places))
}

impl Open {
    /// Tries a setting out: the times with it changed, in trial memory, and their cost. The plan is as it was.
    pub fn trial<K: Kind>(
        &self,
        tracks: &[Track<K>],
        runs: &[Run<K>],
        connections: &[Connection<K>],
        settings: &mut [u8],
        times: &[K],
        trial: &mut [K],
        ring: &mut [u16],
        work: &mut Work<'_, K>,
        switch: Switch,
        setting: u8,
    ) -> Result<u64, PlanFault>
        ensures reckons { let m = memory self.now.numbers (lists tracks.now runs.now connections.now settings.old) in Reckons K.Kind.time (turning_call_rows K.Kind.time (lengths (length trial.old) (length ring.old) (work_lengths work.old)) m times.now switch setting) (register_of K.Kind.time (switch_memory K.Kind.time m switch setting)) trial.old trial.new ring.old ring.new result }
        ensures cost { IfOk result (λ n. n ≡ delay_cost_lem K.Kind.time (register_of K.Kind.time (switch_memory K.Kind.time (memory self.now.numbers (lists tracks.now runs.now connections.now settings.old)) switch setting)) (time_at K.Kind.time trial.new)) }
        ensures records { settings.new ≡ settings.old }
        ensures work { SameWork work.old work.new }
    {
        let records = Records {
            tracks,
            runs,
            connections,
            settings: &*settings,
        };
        let place = admit_turning(
            self.numbers,
            &records,
            times,
            trial.len(),
            ring.len(),
            work,
            switch,
            setting,
        )?;
        try_setting(
            self.numbers,
            tracks,
            runs,
            connections,
            settings,
            trial,
            ring,
            work,
            place,
            setting,
        )
    }
}
