//! What a race is: its lines, its claims, its devices, and what may be chosen. Nothing here knows how it is searched.

mod choices;
mod claims;
mod devices;
mod races;

pub use choices::{Act, Choice};
pub use claims::{Atom, Claim, Claiming, Literal};
pub use devices::{Budget, Device, MANNERS};
pub use races::{Count, Line, Race, Verdicts};
