//! The calls of a list on a draft.
ghost use Rattle.std.specs.Prelude.{◌≡◌};
ghost use Rattle.force.specs.declared.work.Work.{Work as Lent};
ghost use Rattle.force.specs.Work.{SameWork};
ghost use Rattle.rules.specs.Rows.{RecordsListed};
ghost use Rattle.plan.specs.States.{memory};
ghost use Rattle.journal.specs.declared.calls.Plan.TheVariants as stage;
ghost use Rattle.journal.specs.Memories.{AllListed, SameMemories, sizes, lists_held, state};
ghost use Rattle.journal.specs.Promise.{Step};

use crate::{Answer, Call, CallFault, Memories, Plan};
use force::Work;
use kinds::Kind;
use plan::{Draft, Unopened};
use records::Records;

/// A call on a draft other than opening it, where every memory has its length. It takes no working memory.
pub(crate) fn in_draft<K: Kind>(
    draft: &mut Draft,
    memories: &mut Memories<'_, K>,
    call: Call<K>,
) -> Result<Answer<K>, CallFault>
    requires listed { RecordsListed (memory draft.old.numbers (lists_held memories.old)) }
    requires drafting { call ≡ Call.Open → ⊥ }
    ensures step { (work : Lent K) → AllListed (sizes memories.old work) → Step K.Kind.time (sizes memories.old work) (state (stage.Draft draft.old) memories.old) call result memories.new.ring.now memories.new.trial.now (state (stage.Draft draft.new) memories.new) }
    ensures same { SameMemories memories.old memories.new }
{
    // Lent one by one, so that some are read while others are written.
    let tracks = &mut *memories.tracks;
    let runs = &mut *memories.runs;
    let connections = &mut *memories.connections;
    let settings = &mut *memories.settings;
    match call {
        Call::Track { track } => Ok(Answer::Number(draft.track(
            tracks,
            runs,
            connections,
            settings,
            track,
        )?)),
        Call::Run { run } => Ok(Answer::Number(draft.run(
            tracks,
            runs,
            connections,
            settings,
            run,
        )?)),
        Call::Connection { connection } => Ok(Answer::Number(draft.connection(
            tracks,
            runs,
            connections,
            settings,
            connection,
        )?)),
        Call::Preset { switch, setting } => {
            draft.preset(tracks, runs, connections, settings, switch, setting)?;
            Ok(Answer::Done)
        }
        Call::Setting { switch } => {
            let records = Records {
                tracks,
                runs,
                connections,
                settings,
            };
            Ok(Answer::Setting(draft.setting(records, switch)?))
        }
        Call::Open
        | Call::Report { .. }
        | Call::Turn { .. }
        | Call::Hold { .. }
        | Call::Release { .. }
        | Call::Trial { .. }
        | Call::Time { .. }
        | Call::Cost => Err(CallFault::Misuse),
    }
}

/// Opens a draft, where every memory has its length.
pub(crate) fn open_draft<K: Kind>(
    draft: Draft,
    memories: &mut Memories<'_, K>,
    work: &mut Work<'_, K>,
) -> (Plan, Result<Answer<K>, CallFault>)
    requires listed { AllListed (sizes memories.old work.old) }
    ensures step { Step K.Kind.time (sizes memories.old work.old) (state (stage.Draft draft) memories.old) Call.Open result.1 memories.new.ring.now memories.new.trial.now (state result.0 memories.new) }
    ensures same { SameMemories memories.old memories.new }
    ensures work { SameWork work.old work.new }
{
    // Lent one by one, so that some are read while others are written.
    let tracks = &mut *memories.tracks;
    let runs = &mut *memories.runs;
    let connections = &mut *memories.connections;
    let settings = &mut *memories.settings;
    let records = Records {
        tracks,
        runs,
        connections,
        settings,
    };
    match draft.open(records, memories.times, memories.ring, work) {
        Ok(open) => (Plan::Open(open), Ok(Answer::Done)),
        // Stays without `?`: the fault comes with the draft.
        Err(Unopened { draft, fault }) => (Plan::Draft(draft), Err(CallFault::Plan(fault))),
    }
}
