//! A caller of `journal::perform` that lends memories of its own, one by one: it learns what each of them holds after the call.
#![tactic(auto)]

ghost use Rattle.std.specs.Prelude.{length};
ghost use Rattle.journal.specs.Promise.{Step};
ghost use Rattle.lent_apart.specs.Apart.{state_apart, sizes_apart, work_apart};

use force::Work;
use journal::{Answer, Call, CallFault, Memories, Plan, perform};
use kinds::Kind;
use network::Arc;
use plan::Slip;
use records::{Connection, Place, Run, Track};

/// Performs a call with memories that are lent one by one.
pub fn perform_apart<K: Kind>(
    plan: Plan,
    tracks: &mut [Track<K>],
    runs: &mut [Run<K>],
    connections: &mut [Connection<K>],
    settings: &mut [u8],
    times: &mut [K],
    trial: &mut [K],
    ring: &mut [u16],
    places: &mut [Place],
    floors: &mut [K],
    arcs: &mut [Arc<K>],
    tables: &mut [K],
    marks: &mut [u16],
    slips: &mut [Option<Slip>],
    call: Call<K>,
) -> (Plan, Result<Answer<K>, CallFault>)
    ensures { Step K.Kind.time (sizes_apart (length tracks.old) (length runs.old) (length connections.old) (length settings.old) (length trial.old) (length slips.old) (work_apart (length times.old) (length ring.old) (length places.old) (length floors.old) (length arcs.old) (length tables.old) (length marks.old))) (state_apart plan tracks.old runs.old connections.old settings.old times.old slips.old) call result.1 ring.new trial.new (state_apart result.0 tracks.new runs.new connections.new settings.new times.new slips.new) }
{
    let mut memories = Memories {
        tracks,
        runs,
        connections,
        settings,
        times,
        trial,
        ring,
        slips,
    };
    let mut work = Work {
        places,
        floors,
        arcs,
        tables,
        marks,
    };
    perform(plan, &mut memories, &mut work, call)
}
