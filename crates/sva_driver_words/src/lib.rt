//! The words of a driver's line, by their places, and what is said of one that is wrong; and what the line of an act
//! says.
#![tactic(auto)]

mod acts;
mod awaits;
mod branches;
mod controls;
mod descriptors;
mod faults;
mod fields;
mod kept;
mod locks;
mod nears;
mod needs;
mod others;
mod pieces;
mod platforms;
mod sayings;
mod timeouts;
mod units;
mod written;

pub use branches::{flag_place, names_flag};
pub use faults::{
    BranchWanted, DriverStop, DriverWanted, DriverWrong, SubmitWanted, judge_end, put_fault,
    wrong_at,
};
pub use fields::{count_at, endpoint_at, has_word, page_at, places_at, says, times_at};
pub use kept::{LineRead, Under};
pub use needs::Need;
pub use pieces::{
    access_text, code_text, kind_text, last_text, put_counted, put_endpoint, put_older, put_one,
    put_page, put_pasid, put_places,
};
pub use platforms::{put_not_asked, put_platform};
pub use sayings::read_saying;
pub use units::put_units;
pub use written::WrittenWanted;
