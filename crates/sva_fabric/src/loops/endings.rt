//! How loops end.

ghost use Rattle.std.specs.Prelude.{◌≡◌};
ghost use Rattle.sva_fabric.specs.Ends.{lacks};
ghost use Rattle.sva_fabric.specs.Plays.{is_memory};

use crate::tokens::UseTicket;
use sva_core::Ledgers;

/// How a loop ended.
pub struct Ended<C: Ledgers> {
    /// How many turns weren't used.
    pub turns_left: u64,
    /// Want of memory ended it.
    pub out_of_memory: bool,
    /// The uses that began and didn't end: at most 16.
    pub tickets: Vec<UseTicket<C>>,
}

/// What became of a turn.
#[derive(Clone, Copy, PartialEq)]
pub(crate) enum Turn {
    /// The line's step was accepted.
    Accepted,
    /// The line is to be tried again.
    Again,
    /// Memory lacked.
    Memory,
    /// The port's last receipt doesn't stand in the journal.
    Strayed,
}

/// How a thread's turns were spent.
#[derive(Clone, Copy)]
pub struct Spent {
    /// How many turns weren't used.
    pub turns_left: u64,
    /// Want of memory ended them.
    pub out_of_memory: bool,
}

impl Spent {
    /// A turn ended them, and so many are left.
    pub(crate) fn by(ended: Turn, turns_left: u64) -> Spent
        ensures turns { result.turns_left ≡ turns_left }
        ensures memory { result.out_of_memory ≡ is_memory ended }
    {
        Spent {
            turns_left,
            out_of_memory: ended == Turn::Memory,
        }
    }

    /// Tells that a thread wanted memory, or has not run for want of it.
    pub fn lacks(spent: Option<Spent>) -> bool
        ensures { result ≡ lacks spent }
    {
        match spent {
            Some(spent) => spent.out_of_memory,
            None => true,
        }
    }
}
