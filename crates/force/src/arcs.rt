//! The arcs in force, listed from the entered records. Each order costs one step.
ghost use Rattle.std.specs.Prelude.{◌≡◌, ℕ, ◌+◌, ◌*◌, ◌<◌, ◌≤◌, length, IfSome};
ghost use Rattle.records.specs.Entered.{register_in};
ghost use Rattle.records.specs.Places.{total, earlier};
ghost use Rattle.force.specs.Force.{Joins, InForce, track_in};
ghost use Rattle.force.specs.Added.{Added, Listed, Among, OfRun, Follows, Turns, OrderOf, RunArcs, OrderArcs, ConnectionArcs, Keeps};

use kinds::Kind;
use network::Arc;
use records::{Connection, Entered, Layout, Place, Run, Track};

// The arcs listed so far, at the front of a memory.
// Stays: a lent list with a count, since there is no heap.
#[derive(Drop)]
struct ArcList<'a, K> {
    arcs: &'a mut [Arc<K>],
    count: usize,
}

// A run and its number.
#[derive(Clone, Copy)]
struct Numbered<K> {
    number: usize,
    run: Run<K>,
}

impl<K: Kind> ArcList<'_, K> {
    // Adds an arc, unless its end is reported.
    fn push_unless(&mut self, report: Option<K>, arc: Arc<K>)
        requires { self.old.count < length self.old.arcs.now }
        ensures added { Added K.Kind.time (Joins report arc.from arc.to arc.duration) self.old self.new }
        ensures room { self.new.count ≤ self.old.count + 1 }
    {
        if report.is_none() {
            self.arcs[self.count] = arc;
            self.count += 1;
        }
    }

    // Adds the running and the dwell arc of a run.
    fn push_run(&mut self, x: Numbered<K>)
        requires few { (x.number < 512) × ((IfSome x.run.predecessor (λ q. q < x.number)) × (self.old.count + 2 ≤ length self.old.arcs.now)) }
        ensures added { Added K.Kind.time (OfRun x.number x.run) self.old self.new }
        ensures room { self.new.count ≤ self.old.count + 2 }
    {
        let Numbered { number, run } = x;
        let departure = 2 * number as u16;
        let running = Arc {
            from: departure,
            to: departure + 1,
            duration: run.running,
        };
        self.push_unless(run.arrived, running);
        if let Some(p) = run.predecessor {
            let dwell = Arc {
                from: 2 * p + 1,
                to: departure,
                duration: run.dwell,
            };
            self.push_unless(run.departed, dwell);
        }
    }

    // Adds what is in force from the run ahead to the other.
    fn push_follow(&mut self, track: Track<K>, ahead: Numbered<K>, other: Numbered<K>)
        requires few { (ahead.number < 512) × ((other.number < 512) × (self.old.count + 2 ≤ length self.old.arcs.now)) }
        ensures added { Added K.Kind.time (Follows track ahead.number ahead.run other.number other.run) self.old self.new }
        ensures room { self.new.count ≤ self.old.count + 2 }
    {
        let a = 2 * ahead.number as u16;
        let b = 2 * other.number as u16;
        if ahead.run.direction == other.run.direction {
            let departures = Arc {
                from: a,
                to: b,
                duration: track.headway,
            };
            let arrivals = Arc {
                from: a + 1,
                to: b + 1,
                duration: track.headway,
            };
            self.push_unless(other.run.departed, departures);
            self.push_unless(other.run.arrived, arrivals);
        } else {
            let meeting = Arc {
                from: a + 1,
                to: b,
                duration: track.meeting,
            };
            self.push_unless(other.run.departed, meeting);
        }
    }

    // Adds what is in force for the order of a run, `x`, with a later one, `y`.
    fn push_order(&mut self, track: Track<K>, setting: u8, x: Numbered<K>, y: Numbered<K>)
        requires few { (x.number < 512) × ((y.number < 512) × ((setting ≤ 1) × (self.old.count + 2 ≤ length self.old.arcs.now))) }
        ensures added { Added K.Kind.time (Turns track setting x.number x.run y.number y.run) self.old self.new }
        ensures room { self.new.count ≤ self.old.count + 2 }
    {
        if setting == 0 {
            self.push_follow(track, x, y);
        } else {
            self.push_follow(track, y, x);
        }
    }

    // Adds a connection's arc while it is kept.
    fn push_connection(&mut self, setting: u8, connection: Connection<K>, onward: Run<K>)
        requires few { (connection.feeder < 512) × ((connection.onward < 512) × (self.old.count < length self.old.arcs.now)) }
        ensures added { Added K.Kind.time (Keeps setting connection onward) self.old self.new }
        ensures room { self.new.count ≤ self.old.count + 1 }
    {
        if setting == 0 {
            let arc = Arc {
                from: 2 * connection.feeder + 1,
                to: 2 * connection.onward,
                duration: connection.time,
            };
            self.push_unless(onward.departed, arc);
        }
    }

    // Adds the running and dwell arcs of all runs.
    fn push_runs(&mut self, e: &Entered<'_, K>)
        requires room { self.old.count + 2 * length e.now.runs.now ≤ length self.old.arcs.now }
        ensures added { Added K.Kind.time (RunArcs K.Kind.time (register_in K.Kind.time e.now) (length e.now.runs.now)) self.old self.new }
        ensures room { self.new.count ≤ self.old.count + 2 * length e.now.runs.now }
    {
        for (r, run) in e.runs.iter().enumerate() {
            self.push_run(Numbered {
                number: r,
                run: *run,
            });
        }
    }

    // Adds the arcs of all connections.
    fn push_connections(&mut self, e: &Entered<'_, K>)
        requires room { self.old.count + length e.now.connections.now ≤ length self.old.arcs.now }
        ensures added { Added K.Kind.time (ConnectionArcs K.Kind.time (register_in K.Kind.time e.now) (length e.now.connections.now)) self.old self.new }
        ensures room { self.new.count ≤ self.old.count + length e.now.connections.now }
    {
        for (i, connection) in e.connections.iter().enumerate() {
            let onward = e.run(connection.onward as usize);
            self.push_connection(e.settings[4_096 + i], *connection, onward);
        }
    }

    // Adds what is in force for the orders of run `j` with earlier runs.
    fn push_orders_of(&mut self, layout: &Layout<'_, '_, K>, j: usize)
        requires inside { j < length layout.now.entered.now.runs.now }
        requires room { self.old.count + 2 * earlier (track_in K.Kind.time (register_in K.Kind.time layout.now.entered.now)) j ≤ length self.old.arcs.now }
        ensures added { Added K.Kind.time (Among (OrderOf K.Kind.time (register_in K.Kind.time layout.now.entered.now) j) 0 j) self.old self.new }
        ensures room { self.new.count ≤ self.old.count + 2 * earlier (track_in K.Kind.time (register_in K.Kind.time layout.now.entered.now)) j }
    {
        let e = layout.entered;
        let run = e.run(j);
        let track = e.track(run.track as usize);
        let y = Numbered { number: j, run };
        let mut next = layout.before(j);
        while let Some(i) = next {
            let x = Numbered {
                number: i,
                run: e.run(i),
            };
            self.push_order(track, layout.setting(i, j), x, y);
            next = layout.before(i);
        }
    }

    // Adds what is in force for all orders.
    fn push_orders(&mut self, layout: &Layout<'_, '_, K>)
        requires room { self.old.count + 2 * total (track_in K.Kind.time (register_in K.Kind.time layout.now.entered.now)) (length layout.now.entered.now.runs.now) ≤ length self.old.arcs.now }
        ensures added { Added K.Kind.time (OrderArcs K.Kind.time (register_in K.Kind.time layout.now.entered.now) (length layout.now.entered.now.runs.now)) self.old self.new }
        ensures room { self.new.count ≤ self.old.count + 2 * total (track_in K.Kind.time (register_in K.Kind.time layout.now.entered.now)) (length layout.now.entered.now.runs.now) }
    {
        // Stays: `j` is the number of a run, and no place that is read here.
        for j in 0..layout.entered.runs.len() {
            self.push_orders_of(layout, j);
        }
    }
}

/// Lists exactly the arcs in force at the front of `arcs`, and answers how many they are. What lies past them is free.
pub fn fill_arcs<K: Kind>(e: &Entered<'_, K>, places: &mut [Place], arcs: &mut [Arc<K>]) -> usize
    requires long { (length arcs.old ≡ 9728) × (length places.old ≡ 512) }
    ensures listed { Listed K.Kind.time (InForce K.Kind.time (register_in K.Kind.time e.now)) arcs.new result }
    ensures few { result ≤ 9728 }
{
    e.lay_out(places);
    let mut list = ArcList { arcs, count: 0 };
    list.push_runs(e);
    list.push_connections(e);
    list.push_orders(&Layout { entered: e, places });
    list.count
}
