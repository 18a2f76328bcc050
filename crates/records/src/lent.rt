//! The memories of a plan's records and settings, as they are lent to a call.
ghost use Rattle.std.specs.Prelude.{◌≡◌, ◌<◌, length};
ghost use Rattle.records.specs.Lent.{lists_in, lists_mut};
ghost use Rattle.records.specs.Records.{track_at, run_at, connection_at};

use crate::{Connection, Run, Track};
use kinds::Kind;

/// The memories of a plan's records and settings, lent to be read: 64 tracks, 512 runs, 512 connections, and 4,608 bytes of settings.
#[derive(Clone, Copy)]
pub struct Records<'t, 'r, 'c, 's, K> {
    pub tracks: &'t [Track<K>],
    pub runs: &'r [Run<K>],
    pub connections: &'c [Connection<K>],
    pub settings: &'s [u8],
}

impl<K: Kind> Records<'_, '_, '_, '_, K> {
    /// The track at place `i`.
    pub fn track(&self, i: usize) -> Track<K>
        requires { i < length self.now.tracks.now }
        ensures { result ≡ track_at K.Kind.time self.now.tracks.now i }
    {
        self.tracks[i]
    }

    /// The run at place `i`.
    pub fn run(&self, i: usize) -> Run<K>
        requires { i < length self.now.runs.now }
        ensures { result ≡ run_at K.Kind.time self.now.runs.now i }
    {
        self.runs[i]
    }

    /// The connection at place `i`.
    pub fn connection(&self, i: usize) -> Connection<K>
        requires { i < length self.now.connections.now }
        ensures { result ≡ connection_at K.Kind.time self.now.connections.now i }
    {
        self.connections[i]
    }
}

/// The same memories, lent to be written.
#[derive(Drop)]
pub struct RecordsMut<'m, K> {
    pub tracks: &'m mut [Track<K>],
    pub runs: &'m mut [Run<K>],
    pub connections: &'m mut [Connection<K>],
    pub settings: &'m mut [u8],
}

impl<K: Kind> RecordsMut<'_, K> {
    /// The memories, to be read.
    pub fn lent(&self) -> Records<'_, '_, '_, '_, K>
        ensures { lists_in result ≡ lists_mut self.now }
    {
        Records {
            tracks: self.tracks,
            runs: self.runs,
            connections: self.connections,
            settings: self.settings,
        }
    }
}
