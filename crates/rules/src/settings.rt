//! What a call on a setting refuses, and where the setting lies.
ghost use Rattle.std.specs.Prelude.{◌≡◌, ◌<◌, length, Decides, IfOk};
ghost use Rattle.network.specs.Refusals.{Passed};
ghost use Rattle.records.specs.Entered.{register_in};
ghost use Rattle.records.specs.Lent.{lists_in, register_lent};
ghost use Rattle.records.specs.Records.{track_of};
ghost use Rattle.records.specs.Places.{place, Ordered};
ghost use Rattle.rules.specs.Faults.{PlanAnswers};
ghost use Rattle.rules.specs.Rows.{switch_rows, setting_place, setting_of, setting_rows, TooLate, turning_rows, PlaceOf};
ghost use Rattle.rules.specs.declared.switches.Switch.TheVariants as named;

use crate::entries::count_on;
use crate::{PlanFault, Switch};
use kinds::Kind;
use records::{Entered, ORDERS, Records, count_orders};

fn check_order<K: Kind>(records: &Records<K>, i: u16, j: u16) -> Result<(), PlanFault>
    ensures { PlanAnswers (switch_rows K.Kind.time (register_lent K.Kind.time (lists_in records.now)) (named.Order i j)) result }
{
    let runs = records.runs.len();
    if i as usize >= runs {
        return Err(PlanFault::Unknown { place: i });
    }
    if j as usize >= runs
        || j <= i
        || records.run(i as usize).track != records.run(j as usize).track
    {
        return Err(PlanFault::Unknown { place: j });
    }
    Ok(())
}

/// What naming an order or a connection refuses.
pub fn check_switch<K: Kind>(records: &Records<K>, switch: Switch) -> Result<(), PlanFault>
    ensures { PlanAnswers (switch_rows K.Kind.time (register_lent K.Kind.time (lists_in records.now)) switch) result }
{
    match switch {
        Switch::Order { i, j } => check_order(records, i, j),
        Switch::Connection { c } => {
            if c as usize >= records.connections.len() {
                return Err(PlanFault::Unknown { place: c });
            }
            Ok(())
        }
    }
}

// The place of the setting of the order of the runs `i` and `j`.
fn order_place<K: Kind>(e: &Entered<'_, K>, i: usize, j: usize) -> usize
    requires { Ordered (track_of K.Kind.time e.now.runs.now) (length e.now.runs.now) i j }
    ensures { result ≡ place (track_of K.Kind.time e.now.runs.now) i j }
{
    count_orders(&e.runs[..j]) as usize + count_on(&e.runs[..i], e.run(i).track)
}

/// The place of the byte of a switch's setting.
pub fn place_of<K: Kind>(e: &Entered<'_, K>, switch: Switch) -> usize
    requires passed { Passed (switch_rows K.Kind.time (register_in K.Kind.time e.now) switch) }
    ensures { PlaceOf K.Kind.time (register_in K.Kind.time e.now) switch result }
{
    match switch {
        Switch::Order { i, j } => order_place(e, i as usize, j as usize),
        Switch::Connection { c } => ORDERS + c as usize,
    }
}

/// The setting of an order or a connection.
pub fn setting_of<K: Kind>(e: &Entered<'_, K>, switch: Switch) -> u8
    requires passed { Passed (switch_rows K.Kind.time (register_in K.Kind.time e.now) switch) }
    ensures { result ≡ setting_of K.Kind.time (register_in K.Kind.time e.now) switch }
{
    e.settings[place_of(e, switch)]
}

/// The place of the byte of a switch's setting, and what naming the switch refuses.
pub fn find_place<K: Kind>(e: &Entered<'_, K>, switch: Switch) -> Result<usize, PlanFault>
    ensures rows { PlanAnswers (switch_rows K.Kind.time (register_in K.Kind.time e.now) switch) result }
    ensures place { IfOk result (PlaceOf K.Kind.time (register_in K.Kind.time e.now) switch) }
{
    check_switch(&e.records(), switch)?;
    Ok(place_of(e, switch))
}

/// The setting of an order or a connection, and what asking for it refuses.
pub fn find_setting<K: Kind>(e: &Entered<'_, K>, switch: Switch) -> Result<u8, PlanFault>
    ensures rows { PlanAnswers (switch_rows K.Kind.time (register_in K.Kind.time e.now) switch) result }
    ensures setting { IfOk result (λ x. x ≡ setting_of K.Kind.time (register_in K.Kind.time e.now) switch) }
{
    check_switch(&e.records(), switch)?;
    Ok(setting_of(e, switch))
}

/// What giving a switch a setting refuses. Taken, the place of the byte of its setting.
pub fn check_setting<K: Kind>(
    e: &Entered<'_, K>,
    switch: Switch,
    setting: u8,
) -> Result<usize, PlanFault>
    ensures rows { PlanAnswers (setting_rows K.Kind.time (register_in K.Kind.time e.now) switch setting) result }
    ensures place { IfOk result (PlaceOf K.Kind.time (register_in K.Kind.time e.now) switch) }
{
    let place = find_place(e, switch)?;
    if setting > 1 {
        return Err(PlanFault::Range);
    }
    if e.settings[place] == setting {
        return Err(PlanFault::Already);
    }
    Ok(place)
}

// Whether a run has departed that a switch would put off.
fn too_late<K: Kind>(e: &Entered<'_, K>, switch: Switch) -> bool
    requires { Passed (switch_rows K.Kind.time (register_in K.Kind.time e.now) switch) }
    ensures { Decides result (TooLate K.Kind.time (register_in K.Kind.time e.now) switch) }
{
    match switch {
        Switch::Order { i, j } => {
            e.run(i as usize).departed.is_some() || e.run(j as usize).departed.is_some()
        }
        Switch::Connection { c } => {
            let onward = e.connection(c as usize).onward;
            e.run(onward as usize).departed.is_some()
        }
    }
}

/// What turning a switch in an open plan refuses. Taken, the place of the byte of its setting.
pub fn check_turning<K: Kind>(
    e: &Entered<'_, K>,
    switch: Switch,
    setting: u8,
) -> Result<usize, PlanFault>
    ensures rows { PlanAnswers (turning_rows K.Kind.time (register_in K.Kind.time e.now) switch setting) result }
    ensures place { IfOk result (PlaceOf K.Kind.time (register_in K.Kind.time e.now) switch) }
{
    let place = check_setting(e, switch, setting)?;
    if too_late(e, switch) {
        return Err(PlanFault::Departed);
    }
    Ok(place)
}
