//! Opening a draft.
ghost use Rattle.std.specs.Prelude.{◌≡◌, ℕ, length, MatchResult};
ghost use Rattle.records.specs.Lent.{lists_in};
ghost use Rattle.records.specs.Register.{register_of};
ghost use Rattle.force.specs.Work.{work_lengths, SameWork};
ghost use Rattle.plan.specs.States.{memory};
ghost use Rattle.plan.specs.Calls.{lengths, opening_rows, Reckons, opened};

use crate::admits::check_work;
use crate::changes::put_in_force;
use crate::states::Numbers;
use crate::{Draft, Open, Unopened};
use force::Work;
use kinds::Kind;
use records::Records;
use rules::{PlanFault, check_draft};

// Reckons what a draft puts in force.
fn start<K: Kind>(
    numbers: Numbers,
    records: Records<K>,
    times: &mut [K],
    ring: &mut [u16],
    work: &mut Work<'_, K>,
) -> Result<(), PlanFault>
    ensures reckons { let m = memory numbers (lists_in records.entry) in Reckons K.Kind.time (opening_rows K.Kind.time (lengths (length times.old) (length ring.old) (work_lengths work.old)) m) (register_of K.Kind.time m) times.old times.new ring.old ring.new result }
    ensures work { SameWork work.old work.new }
{
    check_work(times.len(), ring.len(), work)?;
    check_draft(numbers.view(records))?;
    put_in_force(numbers, records, times, ring, work)
}

impl Draft {
    /// Uses the draft up and gives an open plan that shows its times. Refused, the draft is handed back.
    pub fn open<K: Kind>(
        self,
        records: Records<K>,
        times: &mut [K],
        ring: &mut [u16],
        work: &mut Work<'_, K>,
    ) -> Result<Open, Unopened>
        ensures reckons { let m = memory self.numbers (lists_in records.entry) in Reckons K.Kind.time (opening_rows K.Kind.time (lengths (length times.old) (length ring.old) (work_lengths work.old)) m) (register_of K.Kind.time m) times.old times.new ring.old ring.new (opened result) }
        ensures plan { MatchResult result (λ o. o.numbers ≡ self.numbers) (λ u. u.draft ≡ self) }
        ensures work { SameWork work.old work.new }
    {
        match start(self.numbers, records, times, ring, work) {
            Ok(()) => Ok(Open {
                numbers: self.numbers,
            }),
            Err(fault) => Err(Unopened { draft: self, fault }),
        }
    }
}
