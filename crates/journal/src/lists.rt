//! Whole lists of calls.
ghost use Rattle.std.specs.Prelude.{◌≡◌, ℕ, false, map, replicate, is_some};
ghost use Rattle.force.specs.Work.{SameWork};
ghost use Rattle.plan.specs.Drafting.{blank};
ghost use Rattle.journal.specs.declared.calls.Plan.TheVariants as stage;
ghost use Rattle.journal.specs.Books.{new, registered};
ghost use Rattle.journal.specs.Memories.{SameMemories, sizes, state};
ghost use Rattle.journal.specs.Promise.{Stands, Steps, ToldAll, call_of};

use crate::performing::perform;
use crate::{Line, Memories, Plan};
use force::Work;
use kinds::Kind;
use plan::make;
use std::mem;

/// A new plan, whose number tells its slips from those of other plans.
pub fn new_plan(number: u32) -> Plan
    ensures { result ≡ stage.Draft (blank number) }
{
    Plan::Draft(make(number))
}

/// Performs the calls of a journal on a plan, one after another, and writes each one's reply beside it.
pub fn perform_all<K: Kind>(
    plan: &mut Plan,
    memories: &mut Memories<'_, K>,
    work: &mut Work<'_, K>,
    journal: &mut [Line<K>],
)
    ensures calls { map call_of journal.new ≡ map call_of journal.old }
    ensures steps { Steps K.Kind.time (sizes memories.old work.old) (state plan.old memories.old) journal.new (state plan.new memories.new) }
    ensures fresh { (number slots : ℕ) → plan.old ≡ stage.Draft (blank number) → map is_some memories.old.slips.now ≡ replicate slots false → ToldAll K.Kind.time (sizes memories.old work.old) (new number slots) journal.new × Stands K.Kind.time (registered K.Kind.time (new number slots) journal.new) (state plan.new memories.new) }
    ensures same { SameMemories memories.old memories.new }
    ensures work { SameWork work.old work.new }
{
    for line in journal.iter_mut() {
        // A call uses its plan up, so another stands in its place meanwhile.
        let current = mem::replace(plan, Plan::Draft(make(0)));
        let (next, reply) = perform(current, memories, work, line.call);
        *plan = next;
        line.reply = reply;
    }
}
