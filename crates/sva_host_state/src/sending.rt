//! The sending of messages.

ghost use Rattle.std.specs.Prelude.{◌≤◌};
ghost use Rattle.sva_msg.specs.Bag.{IsNumbered};
ghost use Rattle.sva_host_state.specs.Steps.{Sends};

use sva_msg::{Bag, Kind, Message};
use sva_step::Refusal;

/// Sends so many copies of a message, 1 to 8. `NumbersSpent` where not so many numbers are left below 2^63, and
/// `OutOfMemory` where a growth is refused; then nothing is sent.
pub fn send(bag: &mut Bag, endpoint: u64, kind: Kind, copies: u64) -> Result<(), Refusal>
    requires at_least_one { 1 ≤ copies }
    requires at_most_eight { copies ≤ 8 }
    ensures sends { Sends bag.old endpoint kind copies result bag.new }
    ensures numbered { IsNumbered bag.old }
{
    if bag.left() < copies {
        return Err(Refusal::NumbersSpent);
    }
    match bag.send(Message { endpoint, kind }, copies) {
        Ok(_first) => Ok(()),
        Err(_) => Err(Refusal::OutOfMemory),
    }
}
