//! Lists of calls on a plan, and the promise over every such list.
#![tactic(auto)]

mod calls;
mod control;
mod drafting;
mod lists;
mod memories;
mod performing;
mod slips;
mod theorems;

pub use calls::{Answer, Call, CallFault, Line, Plan};
pub use lists::{new_plan, perform_all};
pub use memories::Memories;
pub use performing::perform;
pub use theorems::{never_for_ring, shown_costs_least};
