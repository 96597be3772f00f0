//! A text as a driver: its settings, its workers, what its endpoints are told, what its lines say, and the world
//! behind those that stand before `race`.
#![tactic(auto)]

mod blocks;
mod bodies;
mod branches;
mod budgets;
mod devices;
mod first;
mod given;
mod kept;
mod kept_of_endpoints;
mod lines;
mod names;
mod needs;
mod opening;
mod pasids;
mod plans;
mod readings;
mod settings;
mod texts;
mod titles;
mod units;
mod ways;
mod writing;
mod written_out;
mod wrong_bodies;

pub use blocks::Block;
pub use bodies::{Body, Definition, Opener, WordedLine, WrongLine};
pub use budgets::{asks_in, has_budget, is_pageless, is_unasked, is_unstarted};
pub use first::take_lines;
pub use kept::{Begun, Halt, Read, Said, Text};
pub use kept_of_endpoints::DeviceRead;
pub use opening::opening_of;
pub use readings::Reading;
pub use texts::{put_refused, read_driver, read_text};
pub use ways::is_past;
pub use writing::Writing;
pub use written_out::plain_lines_stay;
