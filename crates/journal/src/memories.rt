//! The memories of a plan, as they are lent to its calls.
ghost use Rattle.std.specs.Prelude.{Decides};
ghost use Rattle.journal.specs.Memories.{AllListed, sizes};

use force::Work;
use kinds::Kind;
use network::EVENTS;
use plan::Slip;
use records::{Connection, Run, Track};
use rules::{CONNECTIONS, RUNS, SETTINGS, SHOWN, TRACKS};

/// The memories of a plan, lent: its records and settings, 1,024 times, 1,024 times of a trial, the 1,024 events of a ring, and a slot
/// for the slip of each of 512 runs. Working memory is lent beside them.
// Stays of one level: a struct that is lent within another tells a caller of what it lent only how long it is.
#[derive(Drop)]
pub struct Memories<'m, K> {
    pub tracks: &'m mut [Track<K>],
    pub runs: &'m mut [Run<K>],
    pub connections: &'m mut [Connection<K>],
    pub settings: &'m mut [u8],
    pub times: &'m mut [K],
    pub trial: &'m mut [K],
    pub ring: &'m mut [u16],
    pub slips: &'m mut [Option<Slip>],
}

impl<K: Kind> Memories<'_, K> {
    /// Whether each memory, and each of working memory, has its listed length.
    pub fn is_listed(&self, work: &Work<'_, K>) -> bool
        ensures { Decides result (AllListed (sizes self.now work.now)) }
    {
        self.tracks.len() == TRACKS
            && self.runs.len() == RUNS
            && self.connections.len() == CONNECTIONS
            && self.settings.len() == SETTINGS
            && self.times.len() == SHOWN
            && self.trial.len() == SHOWN
            && self.ring.len() == EVENTS
            && self.slips.len() == RUNS
            && work.is_listed()
    }
}
