//! The world: a host with its endpoints and the link, and one step of all of it by the definitions. And what lies under the lock of a
//! fabric, without the lock: a world with the journal of what was asked of it and what it answered, and the books of its calls and tokens.
#![tactic(auto)]

mod agreement;
mod blanks;
mod books;
mod call_tokens;
mod comparing;
mod fault_texts;
mod journal;
mod journal_agreement;
mod ledgers;
mod reading;
mod receipts;
mod running;
mod token_book;
mod whole_run;
mod world;

pub use agreement::headline;
pub use blanks::{Blanks, ports_of};
pub use books::Books;
pub use call_tokens::CallTokens;
pub use journal::{Entry, Journaled};
pub use journal_agreement::headline_of_journals;
pub use ledgers::{Bindings, Ledgers, Uses};
pub use receipts::Receipt;
pub use running::{Running, StepFault, Strayed};
pub use token_book::Part;
pub use whole_run::run;
pub use world::World;
