//! The records of a plan in lent memory: tracks, runs and connections, where the setting of each order lies, and whether what is
//! stored can stand.
#![tactic(auto)]

ghost use Rattle.std.specs.Prelude.{◌≡◌, ℕ, ◌≤◌, length};
ghost use Rattle.records.specs.Lent.{lists_in, lists_entered};
ghost use Rattle.records.specs.Register.{seen};

use kinds::Kind;

mod layout;
mod lent;
mod places;
mod stored;
mod within;

pub use layout::Layout;
pub use lent::{Records, RecordsMut};
pub use places::{Place, count_orders, lay_out};
pub use stored::{check_drafted, check_shown, check_stored, duration_fits};
pub use within::Entered;

/// The most tracks, and the length of their memory.
pub const TRACKS: usize = 64;

/// The most runs, and the length of their memory.
pub const RUNS: usize = 512;

/// The most connections, and the length of their memory.
pub const CONNECTIONS: usize = 512;

/// The most orders, and the number of their bytes, which the bytes of the connections follow.
pub const ORDERS: usize = 4_096;

/// The greatest size of a time.
pub const TIME_SIZE: u32 = 1_000_000;

/// The greatest size of a time shown.
pub const SHOWN_SIZE: u32 = 103_300_000;

/// The greatest size of a duration.
pub const DURATION_SIZE: u32 = 100_000;

/// The greatest penalty of a track or a connection.
pub const PENALTY: u32 = 1_000_000;

/// The greatest weight of a run.
pub const WEIGHT: u16 = 1_000;

/// A single track: the headway between runs in one direction, what passes between opposite runs, and the penalty of a turned order.
#[derive(Clone, Copy)]
pub struct Track<K> {
    pub headway: K,
    pub meeting: K,
    pub penalty: u32,
}

/// A train's run over a track, with the reports of its departure and arrival and its hold, where there.
#[derive(Clone, Copy)]
pub struct Run<K> {
    pub train: u16,
    pub track: u16,
    // Stays: a number, since a direction that is neither 0 nor 1 has to be seen and refused. So are the settings.
    pub direction: u8,
    pub weight: u16,
    pub predecessor: Option<u16>,
    pub departure: K,
    pub arrival: K,
    pub running: K,
    pub dwell: K,
    pub departed: Option<K>,
    pub arrived: Option<K>,
    pub hold: Option<K>,
}

/// A connection from the feeder's arrival to the onward run's departure.
#[derive(Clone, Copy)]
pub struct Connection<K> {
    pub feeder: u16,
    pub onward: u16,
    pub penalty: u32,
    pub time: K,
}

/// The memories of a plan, to be read: records, settings (4,096 bytes of orders, then 512 of connections), and how many records
/// are entered.
// Stays: counts beside lists, since a count may pass its memory, and is then refused.
#[derive(Clone, Copy)]
pub struct View<'t, 'r, 'c, 's, K> {
    pub tracks: &'t [Track<K>],
    pub runs: &'r [Run<K>],
    pub connections: &'c [Connection<K>],
    pub settings: &'s [u8],
    pub track_count: usize,
    pub run_count: usize,
    pub connection_count: usize,
}

/// What is entered of a view, and all of its settings.
pub fn entered<'t, 'r, 'c, 's, K: Kind>(v: View<'t, 'r, 'c, 's, K>) -> Records<'t, 'r, 'c, 's, K>
    requires { (v.track_count ≤ length v.tracks.now) × ((v.run_count ≤ length v.runs.now) × (v.connection_count ≤ length v.connections.now)) }
    ensures { lists_in result ≡ lists_entered (seen v.entry) }
{
    Records {
        tracks: &v.tracks[..v.track_count],
        runs: &v.runs[..v.run_count],
        connections: &v.connections[..v.connection_count],
        settings: v.settings,
    }
}
