//! What is drawn of a witness: the heads of its rails, and of each event the signs between its number and its text.

use sva_open::Message;

/// A sign of a row.
#[derive(Clone, Copy, PartialEq, Eq)]
pub enum Sign {
    /// Nothing.
    Blank,
    /// A rail.
    Rail,
    /// The lane of a message that is in flight.
    Lane,
    /// A part of an arrow.
    Dash,
    /// Who acts, or to whom something is delivered.
    Dot,
    /// A queue into which something is put.
    Queue,
    /// Where a message comes into its lane.
    Start,
    /// Where it leaves that.
    End,
    /// The head of an arrow to the left.
    Left,
    /// The head of an arrow to the right.
    Right,
    /// Where a message is lost.
    Lost,
}

/// The head of a rail.
#[derive(Drop)]
pub struct Head {
    /// How many blanks stand before it.
    pub blanks: usize,
    /// The word of its name.
    pub name: Vec<u8>,
    /// The numbers behind that.
    pub numbers: Vec<usize>,
}

/// What is drawn of an event.
#[derive(Drop)]
pub struct Drawn {
    /// The signs of its line.
    pub signs: Vec<Sign>,
    /// Those of a second line, where it delivers a message and sends one.
    pub more: Vec<Sign>,
    /// What it sends.
    pub sent: Vec<Message>,
}

/// What is drawn of a witness.
#[derive(Drop)]
pub struct Sketch {
    /// The heads of the rails, from left to right.
    pub heads: Vec<Head>,
    /// Of each event, what is drawn of it.
    pub rows: Vec<Drawn>,
}
