//! The questions that an open plan answers. They write nothing.
ghost use Rattle.std.specs.Prelude.{◌≡◌, ℕ, ◌++◌, IfOk};
ghost use Rattle.network.specs.Reckoning.{at as time_at};
ghost use Rattle.records.specs.Lent.{lists_in};
ghost use Rattle.records.specs.Register.{register_of};
ghost use Rattle.rules.specs.Faults.{PlanAnswers};
ghost use Rattle.rules.specs.Rows.{open_rows, event_rows, switch_rows, setting_of};
ghost use Rattle.cost.specs.Cost.{delay_cost_lem};
ghost use Rattle.plan.specs.States.{memory};

use crate::Open;
use crate::admits::admit_shown;
use cost::delay_cost;
use kinds::Kind;
use records::{Place, Records};
use rules::{PlanFault, Switch, check_event, find_setting};

impl Open {
    /// The time shown of an event.
    pub fn time<K: Kind>(
        &self,
        records: Records<K>,
        times: &[K],
        event: u16,
    ) -> Result<K, PlanFault>
        ensures rows { let m = memory self.now.numbers (lists_in records.entry) in PlanAnswers (open_rows K.Kind.time m times.now ++ event_rows K.Kind.time (register_of K.Kind.time m) event) result }
        ensures value { IfOk result (λ x. x ≡ time_at K.Kind.time times.now event) }
    {
        let e = admit_shown(self.numbers, &records, times)?;
        check_event(&e.records(), event)?;
        Ok(times[event as usize])
    }

    /// The setting of an order or a connection.
    pub fn setting<K: Kind>(
        &self,
        records: Records<K>,
        times: &[K],
        switch: Switch,
    ) -> Result<u8, PlanFault>
        ensures rows { let m = memory self.now.numbers (lists_in records.entry) in PlanAnswers (open_rows K.Kind.time m times.now ++ switch_rows K.Kind.time (register_of K.Kind.time m) switch) result }
        ensures value { IfOk result (λ x. x ≡ setting_of K.Kind.time (register_of K.Kind.time (memory self.now.numbers (lists_in records.entry))) switch) }
    {
        let e = admit_shown(self.numbers, &records, times)?;
        Ok(find_setting(&e, switch)?)
    }

    /// The delay cost of the times shown.
    pub fn cost<K: Kind>(&self, records: Records<K>, times: &[K]) -> Result<u64, PlanFault>
        ensures rows { PlanAnswers (open_rows K.Kind.time (memory self.now.numbers (lists_in records.entry)) times.now) result }
        ensures value { IfOk result (λ n. n ≡ delay_cost_lem K.Kind.time (register_of K.Kind.time (memory self.now.numbers (lists_in records.entry))) (time_at K.Kind.time times.now)) }
    {
        let e = admit_shown(self.numbers, &records, times)?;
        let mut places = [Place {
            earlier: 0,
            sum: 0,
            before: None,
        }; 512];
        Ok(delay_cost(&e, times, &mut places))
    }
}
