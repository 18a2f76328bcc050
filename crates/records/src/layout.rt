//! What is entered, with its orders laid out.
ghost use Rattle.std.specs.Prelude.{◌≡◌, ℕ, ◌≤◌, length};
ghost use Rattle.std.proofs.Props.{props};
ghost use Rattle.records.specs.Places.{Laid};
ghost use Rattle.records.specs.Records.{track_of};

use crate::{Entered, Place};
use kinds::Kind;

/// What is entered, and what `Entered::lay_out` has laid out for it.
#[derive(Drop)]
pub struct Layout<'l, 'v, K: Kind> {
    pub entered: &'l Entered<'v, K>,
    pub places: &'l [Place],
    pub ghost room: { length entered.now.runs.now ≤ length places.now },
    pub ghost laid: { Laid (track_of K.Kind.time entered.now.runs.now) (length entered.now.runs.now) places.now } by { Prim.hlevel props },
}

impl<K: Kind> Layout<'_, '_, K> {
    ghost use Rattle.std.specs.Prelude.{◌<◌};
    ghost use Rattle.records.specs.Entered.{register_in};
    ghost use Rattle.records.specs.Places.{Ordered, Previous};

    /// The last of the earlier runs on the track of run `j`, if there is one.
    pub fn before(&self, j: usize) -> Option<usize>
        requires { j < length self.now.entered.now.runs.now }
        ensures { Previous (track_of K.Kind.time self.now.entered.now.runs.now) (track_of K.Kind.time self.now.entered.now.runs.now j) j result }
    {
        self.places[j].before.map(|p| p as usize)
    }

    /// The setting of the order of the runs `i` and `j`.
    pub fn setting(&self, i: usize, j: usize) -> u8
        requires { Ordered (track_of K.Kind.time self.now.entered.now.runs.now) (length self.now.entered.now.runs.now) i j }
        ensures value { result ≡ (register_in K.Kind.time self.now.entered.now).order i j }
        ensures small { result ≤ 1 }
    {
        self.entered.settings[self.places[j].sum as usize + self.places[i].earlier as usize]
    }
}
