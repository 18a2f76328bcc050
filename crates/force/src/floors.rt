//! The floors of a plan's events.
ghost use Rattle.std.specs.Prelude.{◌≡◌, ℕ, ◌*◌, ◌≤◌, length};
ghost use Rattle.records.specs.Lent.{lists_in, register_lent};
ghost use Rattle.force.specs.Floors.{departure_floor_lem, arrival_floor_lem};
ghost use Rattle.force.specs.Added.{Filled};

use kinds::Kind;
use records::{Records, Run};

// The report, else the later of the schedule and the hold.
fn departure_floor<K: Kind>(run: Run<K>) -> K
    ensures { result ≡ departure_floor_lem K.Kind.time run }
{
    let held = match run.hold {
        Some(hold) if run.departure.compare(hold) => hold,
        _ => run.departure,
    };
    run.departed.unwrap_or(held)
}

// The report, else the schedule.
fn arrival_floor<K: Kind>(run: Run<K>) -> K
    ensures { result ≡ arrival_floor_lem K.Kind.time run }
{
    run.arrived.unwrap_or(run.arrival)
}

/// Writes the floor of each event of the entered runs to the front of `floors`.
pub fn fill_floors<K: Kind>(records: &Records<K>, floors: &mut [K])
    requires { 2 * length records.now.runs.now ≤ length floors.old }
    ensures { Filled K.Kind.time (register_lent K.Kind.time (lists_in records.now)) floors.new }
{
    // Stays: nothing is known of what chunks of lent floors were written, so pairs by `chunks_mut` are not proved.
    for (r, run) in records.runs.iter().enumerate() {
        floors[2 * r] = departure_floor(*run);
        floors[2 * r + 1] = arrival_floor(*run);
    }
}
