//! Reckoning what the records put in force.
ghost use Rattle.std.specs.Prelude.{◌≡◌, ℕ, length};
ghost use Rattle.records.specs.Entered.{register_in};
ghost use Rattle.force.specs.Reckoned.{TimesAfter, RingAfter};
ghost use Rattle.force.specs.Work.{WorkListed, SameWork, work_lengths};

use crate::{Work, fill_arcs, fill_floors};
use kinds::Kind;
use network::{Arc, Listing, NetworkFault, reckon};
use records::{Entered, Place};

// The same over the memories of `Work` one by one.
// Stays: `reckon` reads some of them and writes others, and behind one `&mut Work` the proof of that didn't close.
fn reckon_over<K: Kind>(
    e: &Entered<'_, K>,
    times: &mut [K],
    ring: &mut [u16],
    places: &mut [Place],
    floors: &mut [K],
    arcs: &mut [Arc<K>],
    tables: &mut [K],
    marks: &mut [u16],
) -> Result<(), NetworkFault>
    requires work { WorkListed (record { places = length places.old; floors = length floors.old; arcs = length arcs.old; tables = length tables.old; marks = length marks.old }) }
    requires written { (length times.old ≡ 1024) × (length ring.old ≡ 1024) }
    ensures times { TimesAfter K.Kind.time (register_in K.Kind.time e.now) times.old times.new result }
    ensures ring { RingAfter K.Kind.time (register_in K.Kind.time e.now) ring.old ring.new result }
{
    fill_floors(&e.records(), floors);
    let arc_count = fill_arcs(e, places, arcs);
    let listing = Listing {
        events: e.events(),
        floors,
        arc_count,
        arcs,
    };
    reckon(listing, times, ring, tables, marks)
}

/// Reckons the constraints in force of what is entered: the least times to the front of `times`, or else a ring's events to the
/// front of `ring`. What is not written stays as it was.
pub fn reckon_plan<K: Kind>(
    e: &Entered<'_, K>,
    times: &mut [K],
    ring: &mut [u16],
    work: &mut Work<'_, K>,
) -> Result<(), NetworkFault>
    requires work { WorkListed (work_lengths work.old) }
    requires written { (length times.old ≡ 1024) × (length ring.old ≡ 1024) }
    ensures times { TimesAfter K.Kind.time (register_in K.Kind.time e.now) times.old times.new result }
    ensures ring { RingAfter K.Kind.time (register_in K.Kind.time e.now) ring.old ring.new result }
    ensures same { SameWork work.old work.new }
{
    reckon_over(
        e,
        times,
        ring,
        work.places,
        work.floors,
        work.arcs,
        work.tables,
        work.marks,
    )
}
