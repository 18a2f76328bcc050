//! What is entered of a plan, within the limits.
ghost use Rattle.std.proofs.Props.{props};
ghost use Rattle.records.specs.Stored.{WithinLimits};

use crate::places::lay_out;
use crate::{Connection, Place, Records, Run, Track, View, entered};
use kinds::Kind;

/// The records that are entered, and the bytes of all settings. They keep the limits.
#[derive(Drop)]
pub struct Entered<'v, K: Kind> {
    pub tracks: &'v [Track<K>],
    pub runs: &'v [Run<K>],
    pub connections: &'v [Connection<K>],
    pub settings: &'v [u8],
    pub ghost limits: { WithinLimits K.Kind.time tracks.now runs.now connections.now settings.now } by { Prim.hlevel props },
}

impl<'v, K: Kind> Entered<'v, K> {
    ghost use Rattle.std.specs.Prelude.{◌≡◌, ℕ, ◌*◌, ◌<◌, ◌≤◌, length};
    ghost use Rattle.records.specs.Entered.{TakenFrom, lists_of};
    ghost use Rattle.records.specs.Lent.{lists_in};
    ghost use Rattle.records.specs.Places.{total, Laid};
    ghost use Rattle.records.specs.Records.{track_at, run_at, connection_at, track_of};
    ghost use Rattle.records.specs.Register.{seen};
    ghost use Rattle.records.specs.Stored.{Stored};

    /// What is entered of a view that is stored.
    pub fn of(v: View<'v, 'v, 'v, 'v, K>) -> Self
        requires stored { Stored K.Kind.time (seen v) }
        requires lengths { (length v.tracks.now ≡ 64) × ((length v.runs.now ≡ 512) × ((length v.connections.now ≡ 512) × (length v.settings.now ≡ 4608))) }
        ensures { TakenFrom K.Kind.time (seen v.entry) result }
    {
        let Records {
            tracks,
            runs,
            connections,
            settings,
        } = entered(v);
        Entered {
            tracks,
            runs,
            connections,
            settings,
        }
    }

    /// What is entered, with no word of its limits.
    pub fn records(&self) -> Records<'v, 'v, 'v, 'v, K>
        ensures { lists_in result ≡ lists_of self.now }
    {
        Records {
            tracks: self.tracks,
            runs: self.runs,
            connections: self.connections,
            settings: self.settings,
        }
    }

    /// The track at place `i`.
    pub fn track(&self, i: usize) -> Track<K>
        requires { i < length self.now.tracks.now }
        ensures { result ≡ track_at K.Kind.time self.now.tracks.now i }
    {
        self.records().track(i)
    }

    /// The run at place `i`.
    pub fn run(&self, i: usize) -> Run<K>
        requires { i < length self.now.runs.now }
        ensures { result ≡ run_at K.Kind.time self.now.runs.now i }
    {
        self.records().run(i)
    }

    /// The connection at place `i`.
    pub fn connection(&self, i: usize) -> Connection<K>
        requires { i < length self.now.connections.now }
        ensures { result ≡ connection_at K.Kind.time self.now.connections.now i }
    {
        self.records().connection(i)
    }

    /// How many events there are: two of each run.
    pub fn events(&self) -> usize
        ensures { result ≡ 2 * length self.now.runs.now }
    {
        2 * self.runs.len()
    }

    /// Lays out where the settings of the orders lie, and answers how many orders there are: for each run, what `Place` says. The
    /// order of `i` and `j` has its setting at `places[j].sum + places[i].earlier`.
    pub fn lay_out(&self, places: &mut [Place]) -> u32
        requires { length self.now.runs.now ≤ length places.old }
        ensures laid { Laid (track_of K.Kind.time self.now.runs.now) (length self.now.runs.now) places.new }
        ensures orders { result ≡ total (track_of K.Kind.time self.now.runs.now) (length self.now.runs.now) }
    {
        lay_out(self.runs, places)
    }
}
