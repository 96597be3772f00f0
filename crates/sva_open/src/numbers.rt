//! The numbers of groups, by which those of one index are told apart.

ghost use Rattle.std.specs.Prelude.{◌≡◌, IfOk};
ghost use Rattle.sva_open.specs.Devices as device;
ghost use Rattle.sva_open.specs.Devices.{highest, number_above};

use crate::descriptors::{Arrived, Filed, Received};
use crate::messages::{Message, Sent};
use crate::parts::Part;
use std::alloc::AllocError;

impl Part {
    /// The number of a group that begins under an index: above those of all that is left of older groups of it. An
    /// error where there is none above.
    pub fn number_above(&self, index: usize) -> Result<u64, AllocError>
        ensures { IfOk result (λ number. number ≡ number_above self.now index) }
    {
        let in_flight = above_all_sent(self.flight.as_slice(), index)?;
        let received = above_all_received(self.received.as_slice(), index)?;
        let arrived = above_all_arrived(self.arrived.as_slice(), index)?;
        let filed = above_all_filed(self.filed.as_slice(), index)?;
        Ok(in_flight.max(received.max(arrived.max(filed))))
    }
}

fn above(is_of_index: bool, number: u64) -> Result<u64, AllocError>
    ensures { IfOk result (λ it. it ≡ device.above is_of_index number) }
{
    if !is_of_index {
        return Ok(0);
    }
    match number.checked_add(1) {
        Some(next) => Ok(next),
        None => Err(AllocError),
    }
}

fn above_sent(one: &Sent, index: usize) -> Result<u64, AllocError>
    ensures { IfOk result (λ it. it ≡ device.above_sent index one.now) }
{
    match &one.message {
        Message::PageRequest(request) => above(request.index == index, one.number),
        Message::Response { index: own, .. } => above(*own == index, one.number),
        _ => Ok(0),
    }
}

fn above_all_sent(flight: &[Sent], index: usize) -> Result<u64, AllocError>
    ensures { IfOk result (λ it. it ≡ highest (device.above_sent index) flight.now) }
{
    let mut top = 0;
    for one in flight {
        top = top.max(above_sent(one, index)?);
    }
    Ok(top)
}

fn above_received(one: &Received, index: usize) -> Result<u64, AllocError>
    ensures { IfOk result (λ it. it ≡ device.above_received index one.now) }
{
    match one {
        Received::Request(arrived) => above(arrived.request.index == index, arrived.number),
        Received::Drain { .. } => Ok(0),
    }
}

fn above_all_received(received: &[Received], index: usize) -> Result<u64, AllocError>
    ensures { IfOk result (λ it. it ≡ highest (device.above_received index) received.now) }
{
    let mut top = 0;
    for one in received {
        top = top.max(above_received(one, index)?);
    }
    Ok(top)
}

fn above_all_arrived(arrived: &[Arrived], index: usize) -> Result<u64, AllocError>
    ensures { IfOk result (λ it. it ≡ highest (device.above_arrived index) arrived.now) }
{
    let mut top = 0;
    for one in arrived {
        top = top.max(above(one.request.index == index, one.number)?);
    }
    Ok(top)
}

fn above_all_filed(filed: &[Filed], index: usize) -> Result<u64, AllocError>
    ensures { IfOk result (λ it. it ≡ highest (device.above_filed index) filed.now) }
{
    let mut top = 0;
    for one in filed {
        top = top.max(above(one.index == index, one.number)?);
    }
    Ok(top)
}
