//! The signs of a line: rails, lanes, and the arrows that begin or end there.

use crate::blocks::Blocks;
use crate::places::{Flight, Places, Rail, delivered};
use std::alloc::{AllocError, Global};
use sva_script_runs::Taken;

/// What the signs of a line are drawn with.
#[derive(Drop)]
pub(crate) struct Signs<'a> {
    places: &'a Places,
    blocks: Blocks,
    /// The numbers of the messages in flight.
    in_flight: Vec<u64>,
    signs: Vec<u8>,
}

impl<'a> Signs<'a> {
    /// No line yet, and no message in flight.
    pub(crate) fn new(alloc: Global, places: &'a Places, blocks: Blocks) -> Self {
        Signs {
            places,
            blocks,
            in_flight: Vec::new(alloc),
            signs: Vec::new(alloc),
        }
    }

    /// The signs of the line.
    pub(crate) fn signs(&self) -> &[u8] {
        self.signs.as_slice()
    }

    /// Begins a line: the rails, and a lane for each message in flight.
    pub(crate) fn rule(&mut self) -> Result<(), AllocError> {
        let width = match self.blocks.end() {
            Some(end) => end.saturating_add(1),
            None => 0,
        };
        self.signs.clear();
        self.signs.resize(width, b' ')?;
        for block in self.blocks.blocks.as_slice() {
            set(&mut self.signs, block.host, b':');
            set(&mut self.signs, block.device, b':');
        }
        for number in self.in_flight.as_slice() {
            if let Some(flight) = self.places.flight(*number) {
                if let Some(lane) = lane_of(&self.blocks, &flight) {
                    set(&mut self.signs, lane, b'|');
                }
            }
        }
        Ok(())
    }

    /// Draws the arrow of a message that a step delivers, which is in flight no more.
    pub(crate) fn draw_delivery(&mut self, taken: &Taken) {
        let Some(number) = delivered(taken) else {
            return;
        };
        self.in_flight.retain(|other| *other != number);
        let Some(flight) = self.places.flight(number) else {
            return;
        };
        let to = flight.to();
        let (Some(lane), Some(rail)) = (lane_of(&self.blocks, &flight), self.blocks.at(to)) else {
            return;
        };
        dash(&mut self.signs, rail, lane);
        let (place, head) = if to.is_host {
            (rail.saturating_add(1), b'<')
        } else {
            (rail.saturating_sub(1), b'>')
        };
        set(&mut self.signs, place, head);
        set(&mut self.signs, lane, b'\'');
    }

    /// Draws the arrows of the messages that a step sends, which are in flight from now on.
    pub(crate) fn draw_sending(&mut self, taken: &Taken) -> Result<(), AllocError> {
        for number in taken.told.first..taken.told.next {
            self.draw_start(number, true);
        }
        for number in taken.told.first..taken.told.next {
            self.draw_start(number, false);
            self.in_flight.push(number)?;
        }
        Ok(())
    }

    /// Draws the dashes of a message that is sent, or the point at which they meet its lane.
    fn draw_start(&mut self, number: u64, dashes: bool) {
        let Some(flight) = self.places.flight(number) else {
            return;
        };
        let Some(lane) = lane_of(&self.blocks, &flight) else {
            return;
        };
        match self.blocks.at(flight.from()) {
            Some(rail) if dashes => dash(&mut self.signs, rail, lane),
            _ => set(&mut self.signs, lane, b'.'),
        }
    }

    /// Draws the mark of a step at its rail: `o`, or `!` of one that is refused.
    pub(crate) fn draw_mark(&mut self, at: usize, taken: &Taken) {
        let Some(Some(rail)) = self.places.rails.as_slice().get(at) else {
            return;
        };
        if let Some(place) = self.blocks.at(*rail) {
            let sign = if taken.told.reply.is_ok() { b'o' } else { b'!' };
            set(&mut self.signs, place, sign);
        }
    }
}

/// The column of a message's lane.
fn lane_of(blocks: &Blocks, flight: &Flight) -> Option<usize> {
    let rail = Rail {
        endpoint: flight.message.endpoint,
        is_host: true,
    };
    let host = blocks.at(rail)?;
    Some(
        host.saturating_add(3)
            .saturating_add(flight.lane.saturating_mul(3)),
    )
}

/// Puts a sign at a column.
fn set(signs: &mut Vec<u8>, at: usize, sign: u8) {
    if let Some(place) = signs.as_mut_slice().get_mut(at) {
        *place = sign;
    }
}

/// Puts dashes between two columns, but for the lanes that they cross.
fn dash(signs: &mut Vec<u8>, one: usize, other: usize) {
    let first = one.min(other).saturating_add(1);
    for at in first..one.max(other) {
        if let Some(place) = signs.as_mut_slice().get_mut(at) {
            if *place != b'|' {
                *place = b'-';
            }
        }
    }
}
