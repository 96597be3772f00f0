//! Bindings of an address space to an endpoint as states that must be spent, and the table of the PASIDs that they bear.
#![tactic(auto)]

mod bearers;
mod laws;
mod places;
mod reading;
mod stages;
mod states;
mod tables;

pub use bearers::Bearer;
pub use laws::{laws_of_moves, laws_of_tables};
pub use places::TableEntry;
pub use stages::Stage;
pub use states::{Draining, Invalidating, Live, Lost, Quiet, Released, Stopping};
pub use tables::Table;
