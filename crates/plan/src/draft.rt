//! The calls on a draft.
ghost use Rattle.std.specs.Prelude.{◌≡◌, ℕ, ◌+◌, ◌<◌, ◌≤◌, length, IfOk, MatchResult};
ghost use Rattle.records.specs.Lent.{lists_in};
ghost use Rattle.records.specs.Records.{track_of};
ghost use Rattle.records.specs.Places.{total};
ghost use Rattle.records.specs.Register.{register_of};
ghost use Rattle.rules.specs.Faults.{PlanAnswers};
ghost use Rattle.rules.specs.Rows.{setting_of};
ghost use Rattle.plan.specs.States.{memory, lists};
ghost use Rattle.plan.specs.Steps.{cleared, track_memory, run_memory, connection_memory, switch_memory};
ghost use Rattle.plan.specs.Drafting.{track_call_rows, run_call_rows, connection_call_rows, preset_call_rows, setting_call_rows, blank};

use crate::Draft;
use crate::changes::put;
use crate::drafting::{admit, admit_connection, admit_preset, admit_run, admit_track};
use crate::states::Numbers;
use kinds::Kind;
use records::{Connection, Records, Run, Track, count_orders};
use rules::{PlanFault, Switch, find_setting};

/// A draft with its number, of which nothing is entered.
pub fn make(number: u32) -> Draft
    ensures { result ≡ blank number }
{
    Draft {
        numbers: Numbers {
            number,
            tracks: 0,
            runs: 0,
            connections: 0,
        },
    }
}

// How many orders the first `n` runs have.
fn orders_below<K: Kind>(runs: &[Run<K>], n: usize) -> usize
    requires inside { n ≤ length runs.now }
    requires few { n ≤ 512 }
    requires tracks { (k : ℕ) → k < n → track_of K.Kind.time runs.now k < 64 }
    ensures { result ≡ total (track_of K.Kind.time runs.now) n }
{
    count_orders(&runs[..n]) as usize
}

fn clear(bytes: &mut [u8], start: usize, number: usize)
    requires { start + number ≤ length bytes.old }
    ensures { bytes.new ≡ cleared bytes.old start number }
{
    bytes[start..start + number].fill(0);
}

impl Draft {
    /// Enters a track, and answers its number.
    pub fn track<K: Kind>(
        &mut self,
        tracks: &mut [Track<K>],
        runs: &[Run<K>],
        connections: &[Connection<K>],
        settings: &[u8],
        track: Track<K>,
    ) -> Result<u16, PlanFault>
        ensures rows { PlanAnswers (track_call_rows K.Kind.time (memory self.old.numbers (lists tracks.old runs.now connections.now settings.now)) track) result }
        ensures writes { MatchResult result (λ n. (n ≡ self.old.numbers.tracks) × (memory self.new.numbers (lists tracks.new runs.now connections.now settings.now) ≡ track_memory (memory self.old.numbers (lists tracks.old runs.now connections.now settings.now)) track)) (λ _. (self.new ≡ self.old) × (tracks.new ≡ tracks.old)) }
        ensures number { self.new.numbers.number ≡ self.old.numbers.number }
    {
        let records = Records {
            tracks: &*tracks,
            runs,
            connections,
            settings,
        };
        admit_track(self.numbers, &records, track)?;
        let n = self.numbers.tracks;
        tracks[n as usize] = track;
        self.numbers.tracks = n + 1;
        Ok(n)
    }

    /// Enters a run with no report and no hold, and answers its number. The settings of its orders are 0.
    pub fn run<K: Kind>(
        &mut self,
        tracks: &[Track<K>],
        runs: &mut [Run<K>],
        connections: &[Connection<K>],
        settings: &mut [u8],
        run: Run<K>,
    ) -> Result<u16, PlanFault>
        ensures rows { PlanAnswers (run_call_rows K.Kind.time (memory self.old.numbers (lists tracks.now runs.old connections.now settings.old)) run) result }
        ensures writes { MatchResult result (λ n. (n ≡ self.old.numbers.runs) × (memory self.new.numbers (lists tracks.now runs.new connections.now settings.new) ≡ run_memory K.Kind.time (memory self.old.numbers (lists tracks.now runs.old connections.now settings.old)) run)) (λ _. (self.new ≡ self.old) × (runs.new ≡ runs.old) × (settings.new ≡ settings.old)) }
        ensures number { self.new.numbers.number ≡ self.old.numbers.number }
    {
        let records = Records {
            tracks,
            runs: &*runs,
            connections,
            settings: &*settings,
        };
        admit_run(self.numbers, &records, run)?;
        let n = self.numbers.runs;
        let first = orders_below(runs, n as usize);
        let unused = Run {
            departed: None,
            arrived: None,
            hold: None,
            ..run
        };
        put(runs, n as usize, unused);
        let number = orders_below(runs, n as usize + 1) - first;
        clear(settings, first, number);
        self.numbers.runs = n + 1;
        Ok(n)
    }

    /// Enters a connection, and answers its number. Its setting is 0.
    pub fn connection<K: Kind>(
        &mut self,
        tracks: &[Track<K>],
        runs: &[Run<K>],
        connections: &mut [Connection<K>],
        settings: &mut [u8],
        connection: Connection<K>,
    ) -> Result<u16, PlanFault>
        ensures rows { PlanAnswers (connection_call_rows K.Kind.time (memory self.old.numbers (lists tracks.now runs.now connections.old settings.old)) connection) result }
        ensures writes { MatchResult result (λ n. (n ≡ self.old.numbers.connections) × (memory self.new.numbers (lists tracks.now runs.now connections.new settings.new) ≡ connection_memory (memory self.old.numbers (lists tracks.now runs.now connections.old settings.old)) connection)) (λ _. (self.new ≡ self.old) × (connections.new ≡ connections.old) × (settings.new ≡ settings.old)) }
        ensures number { self.new.numbers.number ≡ self.old.numbers.number }
    {
        let records = Records {
            tracks,
            runs,
            connections: &*connections,
            settings: &*settings,
        };
        admit_connection(self.numbers, &records, connection)?;
        let n = self.numbers.connections;
        connections[n as usize] = connection;
        settings[4_096 + n as usize] = 0;
        self.numbers.connections = n + 1;
        Ok(n)
    }

    /// Gives an order or a connection a setting.
    pub fn preset<K: Kind>(
        &self,
        tracks: &[Track<K>],
        runs: &[Run<K>],
        connections: &[Connection<K>],
        settings: &mut [u8],
        switch: Switch,
        setting: u8,
    ) -> Result<(), PlanFault>
        ensures rows { PlanAnswers (preset_call_rows K.Kind.time (memory self.now.numbers (lists tracks.now runs.now connections.now settings.old)) switch setting) result }
        ensures writes { MatchResult result (λ _. memory self.now.numbers (lists tracks.now runs.now connections.now settings.new) ≡ switch_memory K.Kind.time (memory self.now.numbers (lists tracks.now runs.now connections.now settings.old)) switch setting) (λ _. settings.new ≡ settings.old) }
    {
        let records = Records {
            tracks,
            runs,
            connections,
            settings: &*settings,
        };
        let place = admit_preset(self.numbers, &records, switch, setting)?;
        settings[place] = setting;
        Ok(())
    }

    /// The setting of an order or a connection.
    pub fn setting<K: Kind>(&self, records: Records<K>, switch: Switch) -> Result<u8, PlanFault>
        ensures rows { PlanAnswers (setting_call_rows K.Kind.time (memory self.now.numbers (lists_in records.entry)) switch) result }
        ensures reads { IfOk result (λ s. s ≡ setting_of K.Kind.time (register_of K.Kind.time (memory self.now.numbers (lists_in records.entry))) switch) }
    {
        let e = admit(self.numbers, &records)?;
        Ok(find_setting(&e, switch)?)
    }
}
