//! The two states of a plan, and the slip of a held run.
ghost use Rattle.std.specs.Prelude.{◌≡◌};
ghost use Rattle.records.specs.Lent.{lists_in};
ghost use Rattle.records.specs.Register.{seen};
ghost use Rattle.plan.specs.States.{memory};

use kinds::Kind;
use records::{Records, View};
use rules::PlanFault;

/// A plan's number, and how many records of each list are entered.
// Stays: counts apart from the lists, since a plan is plain numbers, and its memory is lent to each call.
#[derive(Clone, Copy)]
pub(crate) struct Numbers {
    pub(crate) number: u32,
    pub(crate) tracks: u16,
    pub(crate) runs: u16,
    pub(crate) connections: u16,
}

impl Numbers {
    /// The memory of a plan, to be read.
    pub(crate) fn view<'v, K: Kind>(
        self,
        records: Records<'v, 'v, 'v, 'v, K>,
    ) -> View<'v, 'v, 'v, 'v, K>
        ensures { seen result ≡ memory self (lists_in records.entry) }
    {
        View {
            tracks: records.tracks,
            runs: records.runs,
            connections: records.connections,
            settings: records.settings,
            track_count: self.tracks as usize,
            run_count: self.runs as usize,
            connection_count: self.connections as usize,
        }
    }
}

/// A plan that is being entered.
#[derive(Drop)]
pub struct Draft {
    pub(crate) numbers: Numbers,
}

/// A plan that shows times.
#[derive(Drop)]
pub struct Open {
    pub(crate) numbers: Numbers,
}

/// A held run, which has to be released: a slip can be neither copied nor let go.
pub struct Slip {
    pub(crate) plan: u32,
    pub(crate) run: u16,
}

/// A refused opening, with the draft handed back.
pub struct Unopened {
    pub draft: Draft,
    pub fault: PlanFault,
}

/// A refused release, with the slip handed back.
pub struct Unreleased {
    pub slip: Slip,
    pub fault: PlanFault,
}
