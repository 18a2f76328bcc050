//! Calls as a list of them names them, and what they are answered.
ghost use Rattle.std.specs.Prelude.{◌≡◌};
ghost use Rattle.journal.specs.Faults.{call_number, call_place};
ghost use Rattle.journal.specs.declared.calls.CallFault.TheVariants as told;

use plan::{Draft, Open};
use records::{Connection, Run, Track};
use rules::{PlanFault, Switch};

/// A call on a plan. A slip is named by the run that it holds.
#[derive(Clone, Copy)]
pub enum Call<K> {
    Track { track: Track<K> },
    Run { run: Run<K> },
    Connection { connection: Connection<K> },
    Preset { switch: Switch, setting: u8 },
    Open,
    Report { event: u16, at: K },
    Turn { switch: Switch, setting: u8 },
    Hold { run: u16, until: K },
    Release { run: u16 },
    Trial { switch: Switch, setting: u8 },
    Time { event: u16 },
    Setting { switch: Switch },
    Cost,
}

/// What a taken call answers.
#[derive(Clone, Copy, Debug, PartialEq, Eq)]
pub enum Answer<K> {
    Done,
    Number(u16),
    Time(K),
    Setting(u8),
    Cost(u64),
}

/// Why a call of a list was not taken.
#[derive(Clone, Copy, Debug, PartialEq, Eq)]
pub enum CallFault {
    /// The plan's state does not have the call, or there is no slip at hand.
    Misuse,
    /// What the plan refused, whole.
    Plan(PlanFault),
}

/// A line of a journal: a call, and the reply to it.
#[derive(Clone, Copy)]
pub struct Line<K> {
    pub call: Call<K>,
    pub reply: Result<Answer<K>, CallFault>,
}

/// A plan in one of its two states.
#[derive(Drop)]
pub enum Plan {
    Draft(Draft),
    Open(Open),
}

impl From<PlanFault> for CallFault {
    ghost from_gives = { λ e r. r ≡ told.Plan e };

    fn from(refusal: PlanFault) -> CallFault {
        CallFault::Plan(refusal)
    }
}

impl CallFault {
    /// The number of the refusal, 0 for a misuse.
    pub fn number(&self) -> u8
        ensures { result ≡ call_number self.now }
    {
        match self {
            CallFault::Misuse => 0,
            CallFault::Plan(fault) => fault.number(),
        }
    }

    /// The place of the refusal.
    pub fn place(&self) -> usize
        ensures { result ≡ call_place self.now }
    {
        match self {
            CallFault::Misuse => 0,
            CallFault::Plan(fault) => fault.place(),
        }
    }
}
