//! One call of a list, performed.
ghost use Rattle.std.specs.Prelude.{◌≡◌, true, false, map, is_some};
ghost use Rattle.network.specs.Refusals.{First};
ghost use Rattle.force.specs.Work.{SameWork};
ghost use Rattle.journal.specs.Books.{Books};
ghost use Rattle.journal.specs.Memories.{Sizes, AllListed, SameMemories, sizes, state};
ghost use Rattle.journal.specs.Rows.{call_rows};
ghost use Rattle.journal.specs.Promise.{opened_in, Step};

use crate::control::in_open;
use crate::drafting::{in_draft, open_draft};
use crate::slips::kept_slip;
use crate::{Answer, Call, CallFault, Memories, Plan};
use force::Work;
use kinds::Kind;
use plan::Slip;
use rules::PlanFault;

// Whether the plan's state does not have the call, or there is no slip at hand.
fn misused<K: Kind>(plan: &Plan, slips: &[Option<Slip>], call: Call<K>) -> bool
    ensures { (l : Sizes) (B : Books K) → opened_in plan.now ≡ B.opened → map is_some slips.now ≡ B.slips → (AllListed l → ⊥) → (result ≡ true → First (call_rows K.Kind.time l B call) 0 0) × (result ≡ false → First (call_rows K.Kind.time l B call) 1 0) }
{
    let is_open = matches!(plan, Plan::Open(_));
    match call {
        Call::Track { .. }
        | Call::Run { .. }
        | Call::Connection { .. }
        | Call::Preset { .. }
        | Call::Open => is_open,
        Call::Release { run } => !is_open || !kept_slip(slips, run),
        Call::Setting { .. } => false,
        Call::Report { .. }
        | Call::Turn { .. }
        | Call::Hold { .. }
        | Call::Trial { .. }
        | Call::Time { .. }
        | Call::Cost => !is_open,
    }
}

/// Performs a call of a list, whatever the plan's state and the memories are.
pub fn perform<K: Kind>(
    plan: Plan,
    memories: &mut Memories<'_, K>,
    work: &mut Work<'_, K>,
    call: Call<K>,
) -> (Plan, Result<Answer<K>, CallFault>)
    ensures step { Step K.Kind.time (sizes memories.old work.old) (state plan memories.old) call result.1 memories.new.ring.now memories.new.trial.now (state result.0 memories.new) }
    ensures same { SameMemories memories.old memories.new }
    ensures work { SameWork work.old work.new }
{
    if !memories.is_listed(work) {
        // Lent by itself, so that what it holds stays known.
        let slips = &mut *memories.slips;
        if misused(&plan, slips, call) {
            return (plan, Err(CallFault::Misuse));
        }
        return (plan, Err(CallFault::Plan(PlanFault::Length)));
    }
    match plan {
        Plan::Draft(mut draft) => {
            if let Call::Open = call {
                return open_draft(draft, memories, work);
            }
            let reply = in_draft(&mut draft, memories, call);
            (Plan::Draft(draft), reply)
        }
        Plan::Open(open) => {
            let reply = in_open(&open, memories, work, call);
            (Plan::Open(open), reply)
        }
    }
}
