//! The delay cost of times: late arrivals, broken connections and turned orders.
#![tactic(auto)]

ghost use Rattle.std.specs.Prelude.{◌≡◌, ◌+◌, ◌*◌, ◌<◌, ◌≤◌, length, if◌then◌else◌, ◌==◌};
ghost use Rattle.network.specs.Reckoning.{at};
ghost use Rattle.records.specs.Entered.{register_in};
ghost use Rattle.records.specs.Stored.{Shown};
ghost use Rattle.cost.specs.Cost.{turn_costs, lateness_cost_lem, broken_cost_lem, turned_cost_lem, delay_cost_lem, CostsLeast};

use kinds::Kind;
use records::{Entered, Layout, Place, Run};

// What a run costs that arrives at `time`.
fn late_cost<K: Kind>(run: Run<K>, time: K) -> u64
    requires small { (run.weight ≤ 1000) × ((K.Kind.time.size run.arrival ≤ 1000000) × (K.Kind.time.size time ≤ 103300000)) }
    ensures cost { result ≡ run.weight * K.Kind.time.late time run.arrival }
    ensures few { result ≤ 104300000000 }
{
    run.weight as u64 * time.lateness(run.arrival).unwrap() as u64
}

// The penalty of a setting that is 1.
fn penalty_if(setting: u8, penalty: u32) -> u64
    ensures cost { result ≡ (if setting == 1 then penalty else 0) }
    ensures few { result ≤ penalty }
{
    if setting == 1 { penalty as u64 } else { 0 }
}

// What the late arrivals cost.
// Stays: tried as a chain with `sum` for the broken connections, which left its bound, its value and its limit to be proved; the loop left nothing.
fn lateness_cost<K: Kind>(e: &Entered<'_, K>, times: &[K]) -> u64
    requires room { 2 * length e.now.runs.now ≤ length times.now }
    requires shown { Shown K.Kind.time times.now (2 * length e.now.runs.now) }
    ensures cost { result ≡ lateness_cost_lem K.Kind.time (register_in K.Kind.time e.now) (at K.Kind.time times.now) }
    ensures few { result ≤ 60000000000000 }
{
    let mut sum = 0;
    for (r, run) in e.runs.iter().enumerate() {
        sum += late_cost(*run, times[2 * r + 1]);
    }
    sum
}

// What the broken connections cost.
fn broken_cost<K: Kind>(e: &Entered<'_, K>) -> u64
    ensures cost { result ≡ broken_cost_lem K.Kind.time (register_in K.Kind.time e.now) }
    ensures few { result ≤ 512000000 }
{
    let mut sum = 0;
    for (c, connection) in e.connections.iter().enumerate() {
        sum += penalty_if(e.settings[4_096 + c], connection.penalty);
    }
    sum
}

// What the turned orders of run `j` with earlier runs cost.
fn turned_of<K: Kind>(layout: &Layout<'_, '_, K>, j: usize) -> u64
    requires inside { j < length layout.now.entered.now.runs.now }
    ensures cost { result ≡ turn_costs K.Kind.time (register_in K.Kind.time layout.now.entered.now) j }
    ensures few { result ≤ 512000000 }
{
    let e = layout.entered;
    let penalty = e.track(e.run(j).track as usize).penalty;
    let mut sum = 0;
    let mut next = layout.before(j);
    while let Some(i) = next {
        sum += penalty_if(layout.setting(i, j), penalty);
        next = layout.before(i);
    }
    sum
}

// What the turned orders cost, with one step for each order.
fn turned_cost<K: Kind>(e: &Entered<'_, K>, places: &mut [Place]) -> u64
    requires room { length e.now.runs.now ≤ length places.old }
    ensures cost { result ≡ turned_cost_lem K.Kind.time (register_in K.Kind.time e.now) }
    ensures few { result ≤ 262144000000 }
{
    e.lay_out(places);
    let layout = Layout { entered: e, places };
    let mut sum = 0;
    // Stays: `j` is the number of a run, and no place that is read here.
    for j in 0..e.runs.len() {
        sum += turned_of(&layout, j);
    }
    sum
}

/// The delay cost of the times of what is entered: the weighted lateness of the arrivals, and the penalties of the broken
/// connections and the turned orders. Each order costs one step; `places` is working memory.
pub fn delay_cost<K: Kind>(e: &Entered<'_, K>, times: &[K], places: &mut [Place]) -> u64
    requires room { (2 * length e.now.runs.now ≤ length times.now) × (length e.now.runs.now ≤ length places.old) }
    requires shown { Shown K.Kind.time times.now (2 * length e.now.runs.now) }
    ensures { result ≡ delay_cost_lem K.Kind.time (register_in K.Kind.time e.now) (at K.Kind.time times.now) }
{
    lateness_cost(e, times) + (broken_cost(e) + turned_cost(e, places))
}

/// Least times cost least: no table that meets the constraints in force has a lower delay cost.
pub fn least_costs_least<K: Kind>() -> u8
    ensures { CostsLeast K.Kind.time }
{
    0
}
