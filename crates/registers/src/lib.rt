//! Registers: what the calls on a plan said, folded from their arguments alone.
#![tactic(auto)]

ghost use Rattle.registers.specs.Force.{SameForce};
ghost use Rattle.registers.specs.Kept.{SameKept};
ghost use Rattle.registers.specs.Memories.{StepsAgree};
ghost use Rattle.registers.specs.Rings.{NeverRing};
ghost use Rattle.registers.specs.Rows.{SameRows};
ghost use Rattle.registers.specs.Stays.{LimitsKept};

use kinds::Kind;

/// To say the same is an equivalence of registers, and each step keeps it.
pub fn same_kept<K: Kind>() -> u8
    ensures { SameKept K.Kind.time }
{
    0
}

/// Registers that say the same put the same in force: one table is least for both, one ring is named of both, and one table costs
/// the same in both.
pub fn same_force<K: Kind>() -> u8
    ensures { SameForce K.Kind.time }
{
    0
}

/// Registers that say the same refuse the same: the rows of each call give one answer on both.
pub fn same_rows<K: Kind>() -> u8
    ensures { SameRows K.Kind.time }
{
    0
}

/// What a taken call writes is what it does to the register: the memory after it stands for the register with the step taken.
pub fn steps_agree<K: Kind>() -> u8
    ensures { StepsAgree K.Kind.time }
{
    0
}

/// What the rules let through keeps the limits: a step that no row refuses leaves a register within them. What is drafted stays
/// unreported and free of holds.
pub fn limits_kept<K: Kind>() -> u8
    ensures { LimitsKept K.Kind.time }
{
    0
}

/// Where some table meets a register, no report and no hold brings a ring.
pub fn never_ring<K: Kind>() -> u8
    ensures { NeverRing K.Kind.time }
{
    0
}
