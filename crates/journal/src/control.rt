//! The calls of a list on an open plan.
ghost use Rattle.std.specs.Prelude.{◌≡◌};
ghost use Rattle.force.specs.Work.{SameWork};
ghost use Rattle.journal.specs.declared.calls.Plan.TheVariants as stage;
ghost use Rattle.journal.specs.Memories.{AllListed, SameMemories, sizes, state};
ghost use Rattle.journal.specs.Promise.{Step};

use crate::slips::{kept_slip, pick_slip, put_slip};
use crate::{Answer, Call, CallFault, Memories};
use force::Work;
use kinds::Kind;
use plan::{Open, Unreleased};
use records::Records;
use rules::{PlanFault, TIME_SIZE};

// Holds a run; its slip goes into its slot.
fn open_hold<K: Kind>(
    plan: &Open,
    memories: &mut Memories<'_, K>,
    work: &mut Work<'_, K>,
    run: u16,
    until: K,
) -> Result<Answer<K>, CallFault>
    requires listed { AllListed (sizes memories.old work.old) }
    ensures step { Step K.Kind.time (sizes memories.old work.old) (state (stage.Open plan.now) memories.old) (Call.Hold run until) result memories.new.ring.now memories.new.trial.now (state (stage.Open plan.now) memories.new) }
    ensures same { SameMemories memories.old memories.new }
    ensures work { SameWork work.old work.new }
{
    // Lent by itself, so that what it holds stays known.
    let slips = &mut *memories.slips;
    if kept_slip(slips, run) {
        if until.size() > TIME_SIZE {
            return Err(CallFault::Plan(PlanFault::Time));
        }
        return Err(CallFault::Plan(PlanFault::Already));
    }
    // Lent one by one, so that some are read while others are written.
    let tracks = &mut *memories.tracks;
    let connections = &mut *memories.connections;
    let settings = &mut *memories.settings;
    let slip = plan.hold(
        tracks,
        memories.runs,
        connections,
        settings,
        memories.times,
        memories.ring,
        work,
        run,
        until,
    )?;
    put_slip(slips, run, slip);
    Ok(Answer::Done)
}

// Releases a run by the slip in its slot; refused, the slip is put back.
fn open_release<K: Kind>(
    plan: &Open,
    memories: &mut Memories<'_, K>,
    work: &mut Work<'_, K>,
    run: u16,
) -> Result<Answer<K>, CallFault>
    requires listed { AllListed (sizes memories.old work.old) }
    ensures step { Step K.Kind.time (sizes memories.old work.old) (state (stage.Open plan.now) memories.old) (Call.Release run) result memories.new.ring.now memories.new.trial.now (state (stage.Open plan.now) memories.new) }
    ensures same { SameMemories memories.old memories.new }
    ensures work { SameWork work.old work.new }
{
    let slips = &mut *memories.slips;
    let Some(slip) = pick_slip(slips, run) else {
        return Err(CallFault::Misuse);
    };
    // Lent one by one, so that some are read while others are written.
    let tracks = &mut *memories.tracks;
    let connections = &mut *memories.connections;
    let settings = &mut *memories.settings;
    match plan.release(
        tracks,
        memories.runs,
        connections,
        settings,
        memories.times,
        memories.ring,
        work,
        slip,
    ) {
        Ok(()) => Ok(Answer::Done),
        Err(Unreleased { slip, fault }) => {
            put_slip(slips, run, slip);
            // Stays without `?`: the fault comes with the slip.
            Err(CallFault::Plan(fault))
        }
    }
}

/// A call on an open plan, where every memory has its length.
pub(crate) fn in_open<K: Kind>(
    plan: &Open,
    memories: &mut Memories<'_, K>,
    work: &mut Work<'_, K>,
    call: Call<K>,
) -> Result<Answer<K>, CallFault>
    requires listed { AllListed (sizes memories.old work.old) }
    ensures step { Step K.Kind.time (sizes memories.old work.old) (state (stage.Open plan.now) memories.old) call result memories.new.ring.now memories.new.trial.now (state (stage.Open plan.now) memories.new) }
    ensures same { SameMemories memories.old memories.new }
    ensures work { SameWork work.old work.new }
{
    // Lent one by one, so that some are read while others are written.
    let tracks = &mut *memories.tracks;
    let runs = &mut *memories.runs;
    let connections = &mut *memories.connections;
    let settings = &mut *memories.settings;
    let times = &mut *memories.times;
    let ring = &mut *memories.ring;
    match call {
        Call::Report { event, at } => {
            plan.report(
                tracks,
                runs,
                connections,
                settings,
                times,
                ring,
                work,
                event,
                at,
            )?;
            Ok(Answer::Done)
        }
        Call::Turn { switch, setting } => {
            plan.turn(
                tracks,
                runs,
                connections,
                settings,
                times,
                ring,
                work,
                switch,
                setting,
            )?;
            Ok(Answer::Done)
        }
        Call::Hold { run, until } => open_hold(plan, memories, work, run, until),
        Call::Release { run } => open_release(plan, memories, work, run),
        Call::Trial { switch, setting } => {
            let trial = &mut *memories.trial;
            let cost = plan.trial(
                tracks,
                runs,
                connections,
                settings,
                times,
                trial,
                ring,
                work,
                switch,
                setting,
            )?;
            Ok(Answer::Cost(cost))
        }
        Call::Time { event } => {
            let records = Records {
                tracks,
                runs,
                connections,
                settings,
            };
            Ok(Answer::Time(plan.time(records, times, event)?))
        }
        Call::Setting { switch } => {
            let records = Records {
                tracks,
                runs,
                connections,
                settings,
            };
            Ok(Answer::Setting(plan.setting(records, times, switch)?))
        }
        Call::Cost => {
            let records = Records {
                tracks,
                runs,
                connections,
                settings,
            };
            Ok(Answer::Cost(plan.cost(records, times)?))
        }
        Call::Track { .. }
        | Call::Run { .. }
        | Call::Connection { .. }
        | Call::Preset { .. }
        | Call::Open => Err(CallFault::Misuse),
    }
}
