//! The constraints in force: from the entered records to a network of events, floors and arcs, and its least times or its ring.
#![tactic(auto)]

mod arcs;
mod floors;
mod plan;
mod work;

pub use arcs::fill_arcs;
pub use floors::fill_floors;
pub use plan::reckon_plan;
pub use work::Work;
