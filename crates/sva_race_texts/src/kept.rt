//! A race with what its report tells.

use crate::terms::Race;

/// What is asked by a claim, as its line has it.
#[derive(Drop)]
pub struct Asked {
    /// Its words, one space between two.
    pub text: Vec<u8>,
    /// It is asked of ends alone; else of each moment.
    pub is_of_ends: bool,
}

/// A literal of a claim's condition that stands beside others, with `and` between. The race has a claim for it, behind
/// those of its lines: that it is true at some moment.
#[derive(Drop)]
pub struct AskedLiteral {
    /// Its words, one space between two.
    pub text: Vec<u8>,
    /// It is asked of ends alone, as the claim in which it stands; else of each moment.
    pub is_of_ends: bool,
    /// The number of that claim's line, the first where it stands in several.
    pub line: u64,
}

/// A race that was read.
#[derive(Drop)]
pub struct Text {
    /// The race.
    pub race: Race,
    /// Of each line, the name of its thread. Those before the race are of none: their name has no byte.
    pub threads: Vec<Vec<u8>>,
    /// Of each claim that has a line, its words. Behind these claims the race has one for each literal below.
    pub asked: Vec<Asked>,
    /// The literals of conditions that stand beside others.
    pub literals: Vec<AskedLiteral>,
}
