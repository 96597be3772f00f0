//! The open world: memory, and endpoints with their units and links, whose host may be anybody's. Its state is what
//! its definitions speak of: plain records of lists. Beside it stand what a line names at an endpoint by its age, or
//! by what it is of, as the act that it is now; and what a driver is.
#![tactic(auto)]

mod acts;
mod descriptors;
mod drivers;
mod finding;
mod frames;
mod lists;
mod messages;
mod naming;
mod numbers;
mod opening;
mod opens;
mod parts;
mod rows;
mod scopes;
mod settings;
mod works;

pub use acts::{Act, Control, LocalAct};
pub use descriptors::{Arrived, Descriptor, Filed, Issued, Received, named_or};
pub use drivers::{Budget, Condition, Device, Driver, Fault, Line, Page, Saying, Workers};
pub use finding::{found, is_draining, is_of_kind, is_taken, is_use, kind_of};
pub use frames::{Mapping, Target, Tenure, Translation};
pub use lists::{before, drop_at, drop_first, lowest_free, put, set_at};
pub use messages::{Barrier, Message, PageRequest, Sent};
pub use naming::{Kind, Named};
pub use opens::Open;
pub use parts::Part;
pub use rows::{Entry, KeptEntry, Row, State};
pub use scopes::Scope;
pub use settings::{Conduct, Link, Settings, Stopped, Timeouts};
pub use works::{Group, Request, Work};
