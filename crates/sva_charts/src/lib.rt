//! A run as a sequence chart: host and endpoints in columns, and each message from its sending to its delivery.
//! All that is drawn stands in the rows of a trace; here is only where it stands. And the witness of a driver as one:
//! threads, units and endpoints in columns, and a row for each event.
#![tactic(auto)]

mod arrows;
mod blocks;
mod charting;
mod collecting;
mod driver_charting;
mod events;
mod lines;
mod picture;
mod pieces;
mod places;
mod plan;
mod rails;
mod signs;
mod sketch;
mod sketching;
mod style;
mod ways;
mod witness_rows;

pub use charting::{Drawing, chart};
pub use driver_charting::{chart_driver, driver_chart_text};
