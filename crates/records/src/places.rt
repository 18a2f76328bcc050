//! Where the setting of each order lies.
ghost use Rattle.std.specs.Prelude.{◌≡◌, ℕ, ◌+◌, ◌<◌, ◌≤◌, length};
ghost use Rattle.records.specs.Places.{total, Laid};
ghost use Rattle.records.specs.Records.{track_of, OnTracks};

use crate::Run;
use kinds::Kind;

/// What is laid out for a run: how many earlier runs are on its track, how many orders the runs before it have, and the nearest
/// earlier run on its track, if there is one.
// Stays: a run is named by its place, since the runs lie in lent memory, and there is no heap.
#[derive(Clone, Copy)]
pub struct Place {
    pub earlier: u16,
    pub sum: u32,
    pub before: Option<u16>,
}

// How many of the runs so far are on a track, and the last of them.
#[derive(Clone, Copy)]
struct Tally {
    count: u16,
    last: Option<u16>,
}

/// Lays out where the settings of the orders of runs lie, and answers how many orders there are: for each run, what `Place` says.
pub fn lay_out<K: Kind>(runs: &[Run<K>], places: &mut [Place]) -> u32
    requires few { length runs.now ≤ 512 }
    requires room { length runs.now ≤ length places.old }
    requires tracks { OnTracks K.Kind.time runs.now }
    ensures laid { Laid (track_of K.Kind.time runs.now) (length runs.now) places.new }
    ensures orders { result ≡ total (track_of K.Kind.time runs.now) (length runs.now) }
{
    let mut tallies = [Tally {
        count: 0,
        last: None,
    }; 64];
    let mut sum = 0;
    for (j, run) in runs.iter().enumerate() {
        let tally = &mut tallies[run.track as usize];
        places[j] = Place {
            earlier: tally.count,
            sum,
            before: tally.last,
        };
        sum += tally.count as u32;
        tally.count += 1;
        tally.last = Some(j as u16);
    }
    sum
}

/// How many orders the runs have.
// Stays beside `lay_out`: to lay out only to count would write 512 places where 64 numbers do.
pub fn count_orders<K: Kind>(runs: &[Run<K>]) -> u32
    requires few { length runs.now ≤ 512 }
    requires tracks { OnTracks K.Kind.time runs.now }
    ensures { result ≡ total (track_of K.Kind.time runs.now) (length runs.now) }
{
    let mut counts = [0u16; 64];
    let mut sum = 0;
    for run in runs {
        let count = &mut counts[run.track as usize];
        sum += *count as u32;
        *count += 1;
    }
    sum
}
