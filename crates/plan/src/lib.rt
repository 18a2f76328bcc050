//! Working plans: drafts, open plans, and the calls on them.
#![tactic(auto)]

mod admits;
mod changes;
mod control;
mod draft;
mod drafting;
mod opening;
mod questions;
mod states;
mod trials;

pub use draft::make;
pub use states::{Draft, Open, Slip, Unopened, Unreleased};
