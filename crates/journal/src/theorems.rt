//! What follows for every plan after every list of calls.
ghost use Rattle.journal.specs.Theorems.{NeverForRing, ShownCostsLeast};

use kinds::Kind;

/// On a plan that stands for its books no report, hold or release is refused for a ring.
pub fn never_for_ring<K: Kind>() -> u8
    ensures { NeverForRing K.Kind.time }
{
    0
}

/// On a plan that stands for its books no table that meets what is in force costs less than the times shown.
pub fn shown_costs_least<K: Kind>() -> u8
    ensures { ShownCostsLeast K.Kind.time }
{
    0
}
