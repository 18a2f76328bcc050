//! Networks of events and arcs over any kind of time: the least times, or the ring that forbids them.
#![tactic(auto)]

ghost use Rattle.std.specs.Prelude.{◌≡◌, ℕ, ◌+◌, ◌-◌, ◌*◌, ◌<◌, ◌≤◌, reverse, length, take, drop, Some, None, Decides, MatchOption, ◌≢◌, slice_index, slice_range, min, IfOk};
ghost use Rattle.std.specs.List.{Any};
ghost use Rattle.network.specs.Network.{Least, Ring, Names, HasRing, ends};
ghost use Rattle.network.specs.Refusals.{Passed, Answers};
ghost use Rattle.network.specs.Faults.{network_number, network_place};
ghost use Rattle.network.specs.Reckoning.{at, placed, network_of, Stray, first_stray, lengths, length_rows, network_rows, listed, kept_floors, kept_arcs, handed, first_rows, reckon_rows, TimesHold, RingHolds, RingExactly};
ghost use Rattle.network.specs.Rounds.{InLimits, Sized, Round, Settled, Rising, Turned, SpaceLengths, Solved};

use kinds::Kind;
use std::ops::Range;

mod faults;

pub use faults::{Layer, NetworkFault};

/// An arc from one event to another, or to itself.
#[derive(Clone, Copy)]
pub struct Arc<K> {
    pub from: u16,
    pub to: u16,
    pub duration: K,
}

/// A network as it is listed in memory: its floors are the first `events` of `floors`, and its arcs the first `arc_count` of `arcs`.
// Stays: counts beside lists, since a count may pass its memory, and is then refused.
#[derive(Clone, Copy)]
pub struct Listing<'n, K> {
    pub events: usize,
    pub floors: &'n [K],
    pub arc_count: usize,
    pub arcs: &'n [Arc<K>],
}

/// The most events, and the length of floors, times and ring memory.
pub const EVENTS: usize = 1_024;
/// The most arcs, and the length of arc memory.
pub const ARCS: usize = 9_728;
/// The length of the working memory of times: two tables.
pub const TABLES: usize = 2_048;
/// The length of the working memory of marks: a row for each round, and two more to trace a ring by.
pub const MARKS: usize = 1_050_624;

/// The greatest size of a floor.
pub const FLOOR_SIZE: u32 = 110_000_000;
/// The greatest size of a duration.
pub const DURATION_SIZE: u32 = 100_000;

// Stands for no arc, and for an event that is not marked.
// Stays: an `Option<u16>` takes twice the lent memory, 2 MB more; and it is no plainer, since the places of a traced ring stand in
// the same memory, and each would be an `Option` that is never none.
const NO_ARC: u16 = 65_535;

// The floors and the arcs of a network that keeps its limits.
#[derive(Drop)]
struct Kept<'n, K: Kind> {
    floors: &'n [K],
    arcs: &'n [Arc<K>],
    ghost limits: { InLimits K.Kind.time floors.now arcs.now },
}

// The working memory of a network: two tables of times, a row of marks for each round, and two rows of marks to trace a ring by.
#[derive(Drop)]
struct Workspace<'w, K> {
    now: &'w mut [K],
    next: &'w mut [K],
    rows: &'w mut [u16],
    path: &'w mut [u16],
    seen: &'w mut [u16],
    ghost lengths: { SpaceLengths (length now.now) (length next.now) (length rows.now) (length path.now) (length seen.now) },
}

impl<'w, K: Kind> Workspace<'w, K> {
    // What a network of `events` events takes of working memory.
    fn of(events: usize, tables: &'w mut [K], marks: &'w mut [u16]) -> Workspace<'w, K>
        requires few { events ≤ 1024 }
        requires lengths { (length tables.old ≡ 2048) × (length marks.old ≡ 1050624) }
        ensures { length result.now.now ≡ events }
    {
        let (now, next) = tables.split_at_mut(EVENTS);
        let (rows, more) = marks.split_at_mut(EVENTS * EVENTS);
        let (path, seen) = more.split_at_mut(EVENTS);
        Workspace {
            now: &mut now[..events],
            next: &mut next[..events],
            rows: &mut rows[..events * events],
            path: &mut path[..events],
            seen: &mut seen[..events],
        }
    }
}

// One round: each event's new time is the latest of its old one and of what its arcs bring.
fn round<K: Kind>(kept: &Kept<'_, K>, old: &[K], new: &mut [K], from: &mut [u16])
    requires lengths { (length old.now ≡ length kept.now.floors.now) × ((length new.old ≡ length old.now) × (length from.old ≡ length old.now)) }
    requires sized { Sized K.Kind.time 300000000 old.now }
    ensures { Round K.Kind.time kept.now.arcs.now (length kept.now.arcs.now) old.now new.new from.new }
{
    new.copy_from_slice(old);
    from.fill(NO_ARC);
    for (i, arc) in kept.arcs.iter().enumerate() {
        let end = arc.to as usize;
        match old[arc.from as usize].then(arc.duration) {
            Some(x) => {
                if !x.compare(new[end]) {
                    new[end] = x;
                    from[end] = i as u16;
                }
            }
            None => unreachable(),
        }
    }
}

// The first event that a round raised.
fn first_raised(row: &[u16]) -> Option<usize>
    ensures { elim result [ None ↦ ((v : ℕ) → v < length row.now → slice_index row.now v ≡ 65535) | Some v ↦ (v < length row.now) × (slice_index row.now v ≢ 65535) ] }
{
    row.iter().position(|arc| *arc != NO_ARC)
}

// Raises the floors round by round until nothing changes; answers an event that still rises in the last round.
fn settle<K: Kind>(
    kept: &Kept<'_, K>,
    times: &mut [K],
    next: &mut [K],
    rows: &mut [u16],
) -> Option<usize>
    requires lengths { (length times.old ≡ length kept.now.floors.now) × ((length next.old ≡ length kept.now.floors.now) × (length rows.old ≡ length kept.now.floors.now * length kept.now.floors.now)) }
    ensures { elim result [ None ↦ Settled K.Kind.time kept.now.floors.now kept.now.arcs.now times.new | Some v ↦ Rising K.Kind.time kept.now.floors.now kept.now.arcs.now rows.new v ] }
{
    let n = kept.floors.len();
    times.copy_from_slice(kept.floors);
    // Stays: nothing is known of what chunks of lent rows were written, so rows by `chunks_mut` are not proved.
    for k in 0..n {
        let start = k * n;
        let row = &mut rows[start..start + n];
        round(kept, times, next, row);
        match first_raised(row) {
            None => return None,
            Some(v) => {
                if k + 1 == n {
                    return Some(v);
                }
            }
        }
        times.copy_from_slice(next);
    }
    None
}

// Traces the rise of `v` in the last round back until an event comes twice. The ring's arcs stand in the result's range of `path`,
// the last first.
fn trace<K: Kind>(
    kept: &Kept<'_, K>,
    rows: &[u16],
    v: usize,
    path: &mut [u16],
    seen: &mut [u16],
) -> Range<usize>
    requires lengths { (length rows.now ≡ length kept.now.floors.now * length kept.now.floors.now) × ((length path.old ≡ length kept.now.floors.now) × (length seen.old ≡ length kept.now.floors.now)) }
    requires rising { Rising K.Kind.time kept.now.floors.now kept.now.arcs.now rows.now v }
    ensures { (result.start < result.end) × (result.end ≤ length kept.now.floors.now) × Ring K.Kind.time (placed K.Kind.time kept.now.arcs.now) (slice_range path.new result.start result.end) }
{
    let n = kept.floors.len();
    seen.fill(NO_ARC);
    let mut event = v;
    let mut count = 0;
    // Stays: the walk goes from event to event as the rows tell, and counts its steps.
    while seen[event] == NO_ARC {
        seen[event] = count as u16;
        let arc = rows[(n - 1 - count) * n + event];
        path[count] = arc;
        count += 1;
        event = kept.arcs[arc as usize].from as usize;
    }
    seen[event] as usize..count
}

// The place of the smallest number.
fn smallest(xs: &[u16]) -> usize
    requires { 0 < length xs.now }
    ensures { (result < length xs.now) × ((k : ℕ) → k < length xs.now → slice_index xs.now result ≤ slice_index xs.now k) }
{
    match xs.iter().enumerate().min_by_key(|(_, x)| **x) {
        Some((place, _)) => place,
        None => unreachable(),
    }
}

// Writes the ends of the arcs at the places of `path`, which stand last first, in arc order.
fn list_ends<K: Kind>(arcs: &[Arc<K>], path: &[u16], ring: &mut [u16])
    requires same { length ring.old ≡ length path.now }
    requires known { (p : ℕ) → p < length path.now → slice_index path.now p < length arcs.now }
    ensures { ring.new ≡ reverse (ends K.Kind.time (placed K.Kind.time arcs.now) path.now) }
{
    // Stays: `ring.iter_mut().zip(path)` was tried, and the proof didn't close: it learns nothing of what an adapter of `iter_mut` writes.
    for (j, place) in path.iter().enumerate() {
        ring[j] = arcs[*place as usize].to;
    }
    ring.reverse();
}

// Names the circuit at the places of `path`, which stand last first, at the front of ring memory.
fn name_ring<K: Kind>(arcs: &[Arc<K>], path: &[u16], ring: &mut [u16])
    requires some { (0 < length path.now) × (length path.now ≤ length ring.old) }
    requires known { (p : ℕ) → p < length path.now → slice_index path.now p < length arcs.now }
    ensures turned { Turned K.Kind.time arcs.now path.now (take (length path.now) ring.new) }
    ensures rest { drop (length path.now) ring.new ≡ drop (length path.now) ring.old }
{
    let count = path.len();
    let front = &mut ring[0..count];
    list_ends(arcs, path, front);
    let first = smallest(front);
    front.rotate_left(first);
}

// The least times of a network, or a ring.
fn solve<K: Kind>(
    kept: &Kept<'_, K>,
    space: Workspace<'_, K>,
    times: &mut [K],
    ring: &mut [u16],
) -> Result<(), NetworkFault>
    requires lengths { (length space.now.now ≡ length kept.now.floors.now) × (length times.old ≡ length kept.now.floors.now) }
    requires room { length kept.now.floors.now ≤ length ring.old }
    ensures { Solved K.Kind.time kept.now.floors.now kept.now.arcs.now times.old times.new ring.old ring.new result }
{
    let Workspace {
        now,
        next,
        rows,
        path,
        seen,
    } = space;
    match settle(kept, now, next, rows) {
        None => {
            times.copy_from_slice(now);
            Ok(())
        }
        Some(v) => {
            let circuit = trace(kept, rows, v, path, seen);
            let path = &path[circuit];
            name_ring(kept.arcs, path, ring);
            Err(NetworkFault::Ring { count: path.len() })
        }
    }
}

// The first number in the arcs that names no event.
fn stray<K: Kind>(events: usize, arcs: &[Arc<K>]) -> Option<u16>
    ensures { MatchOption result (Any (Stray events) arcs.now → ⊥) (λ p. Any (Stray events) arcs.now × (p ≡ first_stray events arcs.now)) }
{
    for arc in arcs {
        if arc.from as usize >= events {
            return Some(arc.from);
        }
        if arc.to as usize >= events {
            return Some(arc.to);
        }
    }
    None
}

// Whether a floor is over its size.
fn floor_over<K: Kind>(floors: &[K]) -> bool
    ensures { Decides result (Any (λ x. 110000000 < K.Kind.time.size x) floors.now) }
{
    floors.iter().any(|floor| floor.size() > FLOOR_SIZE)
}

// Whether a duration is over its size.
fn duration_over<K: Kind>(arcs: &[Arc<K>]) -> bool
    ensures { Decides result (Any (λ a. 100000 < K.Kind.time.size a.duration) arcs.now) }
{
    arcs.iter().any(|arc| arc.duration.size() > DURATION_SIZE)
}

// Whether each memory has its listed length.
fn check_lengths(
    floors: usize,
    arcs: usize,
    times: usize,
    ring: usize,
    tables: usize,
    marks: usize,
) -> Result<(), NetworkFault>
    ensures { Answers network_number network_place (length_rows (lengths floors arcs times ring tables marks)) result }
{
    if floors != EVENTS
        || arcs != ARCS
        || times != EVENTS
        || ring != EVENTS
        || tables != TABLES
        || marks != MARKS
    {
        return Err(NetworkFault::Length);
    }
    Ok(())
}

// The network, if it keeps its limits. Of the floors and the arcs as many are given as are counted, up to the limits.
fn check_network<'n, K: Kind>(
    events: usize,
    floors: &'n [K],
    arc_count: usize,
    arcs: &'n [Arc<K>],
) -> Result<Kept<'n, K>, NetworkFault>
    requires counted { (length floors.now ≡ min events 1024) × (length arcs.now ≡ min arc_count 9728) }
    ensures answer { Answers network_number network_place (network_rows K.Kind.time events arc_count floors.now arcs.now) result }
    ensures kept { IfOk result (λ k. (k.floors.now ≡ floors.now) × (k.arcs.now ≡ arcs.now)) }
{
    if let Some(place) = stray(events, arcs) {
        return Err(NetworkFault::Event { place });
    }
    if floor_over(floors) {
        return Err(NetworkFault::Floor);
    }
    if duration_over(arcs) {
        return Err(NetworkFault::Duration);
    }
    if events > EVENTS {
        return Err(NetworkFault::Count);
    }
    if arc_count > ARCS {
        return Err(NetworkFault::Count);
    }
    Ok(Kept { floors, arcs })
}

// The network that is listed, if reckon is handed what it can reckon.
fn check<'n, K: Kind>(
    listing: Listing<'n, K>,
    times: usize,
    ring: usize,
    tables: usize,
    marks: usize,
) -> Result<Kept<'n, K>, NetworkFault>
    ensures answer { Answers network_number network_place (first_rows K.Kind.time (handed (listed listing.entry) times ring tables marks)) result }
    ensures kept { IfOk result (λ k. (k.floors.now ≡ kept_floors (listed listing.entry)) × (k.arcs.now ≡ kept_arcs (listed listing.entry))) }
{
    let Listing {
        events,
        floors,
        arc_count,
        arcs,
    } = listing;
    check_lengths(floors.len(), arcs.len(), times, ring, tables, marks)?;
    let (kept_floors, _) = floors.split_at(events.min(EVENTS));
    let (kept_arcs, _) = arcs.split_at(arc_count.min(ARCS));
    check_network(events, kept_floors, arc_count, kept_arcs)
}

/// The least times of a network, or the ring that forbids them.
///
/// Taken, the front of `times` holds the least times and everything else but working memory (`tables`, `marks`) is as it was.
/// Refused, working memory alone has changed; for a ring its events also fill the front of `ring`, in arc order from the smallest.
pub fn reckon<K: Kind>(
    listing: Listing<'_, K>,
    times: &mut [K],
    ring: &mut [u16],
    tables: &mut [K],
    marks: &mut [u16],
) -> Result<(), NetworkFault>
    ensures answer { Answers network_number network_place (reckon_rows K.Kind.time (handed (listed listing.entry) (length times.old) (length ring.old) (length tables.old) (length marks.old))) result }
    ensures times { TimesHold K.Kind.time (listed listing.entry) times.old times.new result }
    ensures ring { RingHolds K.Kind.time (listed listing.entry) ring.old ring.new result }
    ensures exactly { RingExactly K.Kind.time (handed (listed listing.entry) (length times.old) (length ring.old) (length tables.old) (length marks.old)) }
{
    let kept = check(listing, times.len(), ring.len(), tables.len(), marks.len())?;
    let n = kept.floors.len();
    let space = Workspace::of(n, tables, marks);
    solve(&kept, space, &mut times[..n], ring)
}
