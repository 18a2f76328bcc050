//! The calls of a controller on an open plan.
ghost use Rattle.std.specs.Prelude.{◌≡◌, ℕ, ◌%◌, length, IfOk, IfErr, Some, None, MatchResult};
ghost use Rattle.records.specs.Register.{register_of};
ghost use Rattle.force.specs.Work.{work_lengths, SameWork};
ghost use Rattle.rules.specs.declared.switches.Switch.TheVariants as named;
ghost use Rattle.plan.specs.States.{memory, lists};
ghost use Rattle.plan.specs.Steps.{reported, report_memory, holding, hold_memory, switch_memory};
ghost use Rattle.plan.specs.Calls.{lengths, report_call_rows, hold_call_rows, release_call_rows, turning_call_rows, Reckons, released};

use crate::admits::{admit_hold, admit_release, admit_report, admit_turning};
use crate::changes::{replace_run, replace_setting};
use crate::{Open, Slip, Unreleased};
use force::Work;
use kinds::Kind;
use records::{Connection, Records, Run, Track};
use rules::{PlanFault, Switch};

// The run with a report of one of its events: an even one is its departure, an odd one its arrival.
fn with_report<K: Kind>(run: Run<K>, event: u16, at: K) -> Run<K>
    ensures { result ≡ reported run (event % 2) at }
{
    if event % 2 == 0 {
        Run {
            departed: Some(at),
            ..run
        }
    } else {
        Run {
            arrived: Some(at),
            ..run
        }
    }
}

// The run with another hold.
fn with_hold<K: Kind>(run: Run<K>, hold: Option<K>) -> Run<K>
    ensures { result ≡ holding run hold }
{
    Run { hold, ..run }
}

impl Open {
    /// Reports that an event came at a time, and reckons.
    pub fn report<K: Kind>(
        &self,
        tracks: &[Track<K>],
        runs: &mut [Run<K>],
        connections: &[Connection<K>],
        settings: &[u8],
        times: &mut [K],
        ring: &mut [u16],
        work: &mut Work<'_, K>,
        event: u16,
        at: K,
    ) -> Result<(), PlanFault>
        ensures reckons { let m = memory self.now.numbers (lists tracks.now runs.old connections.now settings.now) in Reckons K.Kind.time (report_call_rows K.Kind.time (lengths (length times.old) (length ring.old) (work_lengths work.old)) m times.old event at) (register_of K.Kind.time (report_memory K.Kind.time m event at)) times.old times.new ring.old ring.new result }
        ensures records { MatchResult result (λ _. memory self.now.numbers (lists tracks.now runs.new connections.now settings.now) ≡ report_memory K.Kind.time (memory self.now.numbers (lists tracks.now runs.old connections.now settings.now)) event at) (λ _. runs.new ≡ runs.old) }
        ensures work { SameWork work.old work.new }
    {
        let records = Records {
            tracks,
            runs: &*runs,
            connections,
            settings,
        };
        admit_report(self.numbers, &records, times, ring.len(), work, event, at)?;
        let r = event as usize / 2;
        let run = with_report(runs[r], event, at);
        replace_run(
            self.numbers,
            tracks,
            runs,
            connections,
            settings,
            times,
            ring,
            work,
            r,
            run,
        )
    }

    /// Gives an order or a connection another setting, and reckons: what `order` and `connect` do, of a switch.
    pub fn turn<K: Kind>(
        &self,
        tracks: &[Track<K>],
        runs: &[Run<K>],
        connections: &[Connection<K>],
        settings: &mut [u8],
        times: &mut [K],
        ring: &mut [u16],
        work: &mut Work<'_, K>,
        switch: Switch,
        setting: u8,
    ) -> Result<(), PlanFault>
        ensures reckons { let m = memory self.now.numbers (lists tracks.now runs.now connections.now settings.old) in Reckons K.Kind.time (turning_call_rows K.Kind.time (lengths (length times.old) (length ring.old) (work_lengths work.old)) m times.old switch setting) (register_of K.Kind.time (switch_memory K.Kind.time m switch setting)) times.old times.new ring.old ring.new result }
        ensures records { MatchResult result (λ _. memory self.now.numbers (lists tracks.now runs.now connections.now settings.new) ≡ switch_memory K.Kind.time (memory self.now.numbers (lists tracks.now runs.now connections.now settings.old)) switch setting) (λ _. settings.new ≡ settings.old) }
        ensures work { SameWork work.old work.new }
    {
        let records = Records {
            tracks,
            runs,
            connections,
            settings: &*settings,
        };
        let place = admit_turning(
            self.numbers,
            &records,
            times,
            times.len(),
            ring.len(),
            work,
            switch,
            setting,
        )?;
        replace_setting(
            self.numbers,
            tracks,
            runs,
            connections,
            settings,
            times,
            ring,
            work,
            place,
            setting,
        )
    }

    /// Sets which of two runs on a track goes ahead, and reckons.
    pub fn order<K: Kind>(
        &self,
        tracks: &[Track<K>],
        runs: &[Run<K>],
        connections: &[Connection<K>],
        settings: &mut [u8],
        times: &mut [K],
        ring: &mut [u16],
        work: &mut Work<'_, K>,
        i: u16,
        j: u16,
        setting: u8,
    ) -> Result<(), PlanFault>
        ensures reckons { let m = memory self.now.numbers (lists tracks.now runs.now connections.now settings.old) in Reckons K.Kind.time (turning_call_rows K.Kind.time (lengths (length times.old) (length ring.old) (work_lengths work.old)) m times.old (named.Order i j) setting) (register_of K.Kind.time (switch_memory K.Kind.time m (named.Order i j) setting)) times.old times.new ring.old ring.new result }
        ensures records { MatchResult result (λ _. memory self.now.numbers (lists tracks.now runs.now connections.now settings.new) ≡ switch_memory K.Kind.time (memory self.now.numbers (lists tracks.now runs.now connections.now settings.old)) (named.Order i j) setting) (λ _. settings.new ≡ settings.old) }
        ensures work { SameWork work.old work.new }
    {
        let switch = Switch::Order { i, j };
        self.turn(
            tracks,
            runs,
            connections,
            settings,
            times,
            ring,
            work,
            switch,
            setting,
        )
    }

    /// Keeps or breaks a connection, and reckons.
    // Stays beside `order`: the interface has two calls for two things; `turn` is for callers that have a switch.
    pub fn connect<K: Kind>(
        &self,
        tracks: &[Track<K>],
        runs: &[Run<K>],
        connections: &[Connection<K>],
        settings: &mut [u8],
        times: &mut [K],
        ring: &mut [u16],
        work: &mut Work<'_, K>,
        c: u16,
        setting: u8,
    ) -> Result<(), PlanFault>
        ensures reckons { let m = memory self.now.numbers (lists tracks.now runs.now connections.now settings.old) in Reckons K.Kind.time (turning_call_rows K.Kind.time (lengths (length times.old) (length ring.old) (work_lengths work.old)) m times.old (named.Connection c) setting) (register_of K.Kind.time (switch_memory K.Kind.time m (named.Connection c) setting)) times.old times.new ring.old ring.new result }
        ensures records { MatchResult result (λ _. memory self.now.numbers (lists tracks.now runs.now connections.now settings.new) ≡ switch_memory K.Kind.time (memory self.now.numbers (lists tracks.now runs.now connections.now settings.old)) (named.Connection c) setting) (λ _. settings.new ≡ settings.old) }
        ensures work { SameWork work.old work.new }
    {
        let switch = Switch::Connection { c };
        self.turn(
            tracks,
            runs,
            connections,
            settings,
            times,
            ring,
            work,
            switch,
            setting,
        )
    }

    /// Holds a run until a time, and reckons. The slip has to be given back by `release`.
    pub fn hold<K: Kind>(
        &self,
        tracks: &[Track<K>],
        runs: &mut [Run<K>],
        connections: &[Connection<K>],
        settings: &[u8],
        times: &mut [K],
        ring: &mut [u16],
        work: &mut Work<'_, K>,
        run: u16,
        until: K,
    ) -> Result<Slip, PlanFault>
        ensures reckons { let m = memory self.now.numbers (lists tracks.now runs.old connections.now settings.now) in Reckons K.Kind.time (hold_call_rows K.Kind.time (lengths (length times.old) (length ring.old) (work_lengths work.old)) m times.old run until) (register_of K.Kind.time (hold_memory K.Kind.time m run (Some until))) times.old times.new ring.old ring.new result }
        ensures records { MatchResult result (λ _. memory self.now.numbers (lists tracks.now runs.new connections.now settings.now) ≡ hold_memory K.Kind.time (memory self.now.numbers (lists tracks.now runs.old connections.now settings.now)) run (Some until)) (λ _. runs.new ≡ runs.old) }
        ensures slip { IfOk result (λ s. (s.plan ≡ self.now.numbers.number) × (s.run ≡ run)) }
        ensures work { SameWork work.old work.new }
    {
        let records = Records {
            tracks,
            runs: &*runs,
            connections,
            settings,
        };
        admit_hold(self.numbers, &records, times, ring.len(), work, run, until)?;
        let r = run as usize;
        let held = with_hold(runs[r], Some(until));
        replace_run(
            self.numbers,
            tracks,
            runs,
            connections,
            settings,
            times,
            ring,
            work,
            r,
            held,
        )?;
        Ok(Slip {
            plan: self.numbers.number,
            run,
        })
    }

    // Strikes out the hold that a slip speaks of, and reckons.
    fn strike<K: Kind>(
        &self,
        tracks: &[Track<K>],
        runs: &mut [Run<K>],
        connections: &[Connection<K>],
        settings: &[u8],
        times: &mut [K],
        ring: &mut [u16],
        work: &mut Work<'_, K>,
        slip_plan: u32,
        slip_run: u16,
    ) -> Result<(), PlanFault>
        ensures reckons { let m = memory self.now.numbers (lists tracks.now runs.old connections.now settings.now) in Reckons K.Kind.time (release_call_rows K.Kind.time (lengths (length times.old) (length ring.old) (work_lengths work.old)) m times.old self.now.numbers.number slip_plan slip_run) (register_of K.Kind.time (hold_memory K.Kind.time m slip_run None)) times.old times.new ring.old ring.new result }
        ensures records { MatchResult result (λ _. memory self.now.numbers (lists tracks.now runs.new connections.now settings.now) ≡ hold_memory K.Kind.time (memory self.now.numbers (lists tracks.now runs.old connections.now settings.now)) slip_run None) (λ _. runs.new ≡ runs.old) }
        ensures work { SameWork work.old work.new }
    {
        let records = Records {
            tracks,
            runs: &*runs,
            connections,
            settings,
        };
        admit_release(
            self.numbers,
            &records,
            times,
            ring.len(),
            work,
            slip_plan,
            slip_run,
        )?;
        let r = slip_run as usize;
        let free = with_hold(runs[r], None);
        replace_run(
            self.numbers,
            tracks,
            runs,
            connections,
            settings,
            times,
            ring,
            work,
            r,
            free,
        )
    }

    /// Takes a slip back, strikes out its hold and reckons. Refused, the slip is handed back.
    pub fn release<K: Kind>(
        &self,
        tracks: &[Track<K>],
        runs: &mut [Run<K>],
        connections: &[Connection<K>],
        settings: &[u8],
        times: &mut [K],
        ring: &mut [u16],
        work: &mut Work<'_, K>,
        slip: Slip,
    ) -> Result<(), Unreleased>
        ensures reckons { let m = memory self.now.numbers (lists tracks.now runs.old connections.now settings.now) in Reckons K.Kind.time (release_call_rows K.Kind.time (lengths (length times.old) (length ring.old) (work_lengths work.old)) m times.old self.now.numbers.number slip.plan slip.run) (register_of K.Kind.time (hold_memory K.Kind.time m slip.run None)) times.old times.new ring.old ring.new (released result) }
        ensures records { MatchResult result (λ _. memory self.now.numbers (lists tracks.now runs.new connections.now settings.now) ≡ hold_memory K.Kind.time (memory self.now.numbers (lists tracks.now runs.old connections.now settings.now)) slip.run None) (λ _. runs.new ≡ runs.old) }
        ensures slip { IfErr result (λ u. u.slip ≡ slip) }
        ensures work { SameWork work.old work.new }
    {
        match self.strike(
            tracks,
            runs,
            connections,
            settings,
            times,
            ring,
            work,
            slip.plan,
            slip.run,
        ) {
            Ok(()) => {
                let Slip { plan: _, run: _ } = slip;
                Ok(())
            }
            Err(fault) => Err(Unreleased { slip, fault }),
        }
    }
}
