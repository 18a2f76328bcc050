//! A worked day: what the definitions say of one small day of three runs, number by number.
#![tactic(auto)]

ghost use Rattle.worked.specs.Day.{WorkedDay};

/// The least times, delay costs, rings and refusals of the worked day are those of its table.
pub fn worked_day() -> u8
    ensures { WorkedDay }
{
    0
}
