//! A witness is drawn: rails, lanes, and the arrows that begin or end there.

use crate::events::{actor_in, event_lines};
use crate::rails::{Owner, Rail, Rails};
use crate::sketch::{Drawn, Sign, Sketch};
use crate::ways::{Came, Way, Ways, ways_of};
use std::alloc::{AllocError, Global};
use sva_driver_texts::read_text;
use sva_open::Message;
use sva_script_reading::Lines;

/// What the signs of a row are drawn with.
#[derive(Drop)]
struct Pen<'a> {
    alloc: Global,
    ways: &'a Ways,
    rails: &'a Rails,
    /// The messages that are in flight, by their places.
    aloft: Vec<usize>,
    signs: Vec<Sign>,
}

/// Whether a message goes up.
fn is_up(message: &Message) -> bool {
    match message {
        Message::Request { .. }
        | Message::Invalidated { .. }
        | Message::PageRequest(_)
        | Message::Marker { .. }
        | Message::Status { .. }
        | Message::ResetDone
        | Message::Passed(_) => true,
        Message::Start { .. }
        | Message::Stop { .. }
        | Message::Reset
        | Message::Completion { .. }
        | Message::Invalidate { .. }
        | Message::Response { .. }
        | Message::Barrier(_) => false,
    }
}

impl<'a> Pen<'a> {
    /// No row yet; what was sent before all events is in flight.
    fn new(alloc: Global, ways: &'a Ways, rails: &'a Rails) -> Result<Self, AllocError> {
        let mut aloft = Vec::new(alloc);
        for number in 0..ways.before {
            if let Some(way) = ways.ways.get(number) {
                if !way.is_over || way.end.is_some() {
                    aloft.push(number)?;
                }
            }
        }
        Ok(Pen {
            alloc,
            ways,
            rails,
            aloft,
            signs: Vec::new(alloc),
        })
    }

    /// Puts a sign at a column.
    fn set(&mut self, at: usize, sign: Sign) {
        if let Some(place) = self.signs.as_mut_slice().get_mut(at) {
            *place = sign;
        }
    }

    /// Puts dashes between two columns, but for the rails and lanes that they cross.
    fn dash(&mut self, one: usize, other: usize) {
        let first = one.min(other).saturating_add(1);
        for at in first..one.max(other) {
            if let Some(place) = self.signs.as_mut_slice().get_mut(at) {
                if *place == Sign::Blank {
                    *place = Sign::Dash;
                }
            }
        }
    }

    /// The column of a message's lane.
    fn lane_of(&self, way: &Way) -> Option<usize> {
        let rail = self.rails.rail(Owner::Endpoint(way.endpoint))?;
        Some(rail.lane.saturating_add(way.lane.saturating_mul(3)))
    }

    /// The rail at the upper end of an endpoint's messages.
    fn unit_of(&self, endpoint: usize) -> Option<Rail> {
        self.rails.rail(Owner::Unit(self.ways.unit_of(endpoint)))
    }

    /// Begins a row: the rails, and a lane for each message in flight.
    fn rule(&mut self) -> Result<(), AllocError> {
        self.signs.clear();
        self.signs.resize(self.rails.width, Sign::Blank)?;
        for rail in self.rails.rails.as_slice() {
            self.set(rail.at, Sign::Rail);
        }
        for place in 0..self.aloft.len() {
            if let Some(way) = self.way_aloft(place) {
                if let Some(lane) = self.lane_of(&way) {
                    self.set(lane, Sign::Lane);
                }
            }
        }
        Ok(())
    }

    /// The message at a place among those in flight.
    fn way_aloft(&self, place: usize) -> Option<Way> {
        let number = self.aloft.get(place).copied()?;
        self.ways.ways.get(number).copied()
    }

    /// Draws the end of each message that is lost by the event at a place.
    fn draw_lost(&mut self, at: usize) {
        for place in 0..self.aloft.len() {
            if let Some(way) = self.way_aloft(place) {
                if way.is_lost && way.end == Some(at) {
                    if let Some(lane) = self.lane_of(&way) {
                        self.set(lane, Sign::Lost);
                    }
                }
            }
        }
        let ways = self.ways;
        self.aloft.retain(|number| match ways.ways.get(*number) {
            Some(way) => !way.is_lost || way.end != Some(at),
            None => false,
        });
    }

    /// Draws the arrow of a message that is delivered, which is in flight no more.
    fn draw_delivery(&mut self, number: usize, way: &Way) {
        self.aloft.retain(|other| *other != number);
        let Some(lane) = self.lane_of(way) else {
            return;
        };
        let up = is_up(&way.message);
        let rail = if up {
            self.unit_of(way.endpoint)
        } else {
            self.rails.rail(Owner::Endpoint(way.endpoint))
        };
        let Some(rail) = rail else {
            return;
        };
        self.dash(rail.at, lane);
        if up {
            self.set(rail.at.saturating_add(1), Sign::Left);
        } else {
            self.set(rail.at.saturating_sub(1), Sign::Right);
        }
        self.set(lane, Sign::End);
        self.set(rail.at, Sign::Dot);
    }

    /// Draws the arrow of a message that is sent: up from its endpoint, down from who acts, or else from the unit.
    fn draw_start(&mut self, way: &Way, actor: Option<Rail>) {
        let Some(lane) = self.lane_of(way) else {
            return;
        };
        let rail = if is_up(&way.message) {
            self.rails.rail(Owner::Endpoint(way.endpoint))
        } else {
            match actor {
                Some(rail) => Some(rail),
                None => self.unit_of(way.endpoint),
            }
        };
        let Some(rail) = rail else {
            return;
        };
        self.dash(rail.at, lane);
        self.set(lane, Sign::Start);
        self.set(rail.at, Sign::Dot);
    }

    /// Draws the arrows of what an event sends, which is in flight from now on.
    fn draw_sending(&mut self, came: &Came, actor: Option<Rail>) -> Result<(), AllocError> {
        for number in came.first..came.next {
            if let Some(way) = self.ways.ways.get(number).copied() {
                self.draw_start(&way, actor);
                self.aloft.push(number)?;
            }
        }
        Ok(())
    }

    /// Draws that descriptors are queued at the unit of an endpoint.
    fn draw_queueing(&mut self, came: &Came, actor: Option<Rail>) {
        let (true, Some(endpoint), Some(rail)) = (came.queues, came.endpoint, actor) else {
            return;
        };
        if let Some(unit) = self.unit_of(endpoint) {
            self.dash(rail.at, unit.at);
            self.set(unit.at, Sign::Queue);
        }
    }

    /// The signs of the row, which are begun anew.
    fn copied(&self) -> Result<Vec<Sign>, AllocError> {
        Vec::from_slice(self.alloc, self.signs.as_slice())
    }

    /// Draws an event of which no more is known than who acts.
    fn draw_plain(&mut self, actor: Option<Rail>) -> Result<Drawn, AllocError> {
        self.rule()?;
        self.draw_actor(actor);
        Ok(Drawn {
            signs: self.copied()?,
            more: Vec::new(self.alloc),
            sent: Vec::new(self.alloc),
        })
    }

    /// What an event sends.
    fn sent_by(&self, came: &Came) -> Result<Vec<Message>, AllocError> {
        let mut sent = Vec::new(self.alloc);
        for number in came.first..came.next {
            if let Some(way) = self.ways.ways.get(number) {
                sent.push(way.message)?;
            }
        }
        Ok(sent)
    }

    /// Draws an event: what it delivers, and what it sends, in a second row where it does both.
    fn draw(&mut self, at: usize, came: &Came, actor: Option<Rail>) -> Result<Drawn, AllocError> {
        self.rule()?;
        self.draw_lost(at);
        let sent = self.sent_by(came)?;
        match (came.delivered, self.ways.delivered(came)) {
            (Some(number), Some(way)) => {
                self.draw_actor(actor);
                self.draw_delivery(number, &way);
                let signs = self.copied()?;
                let more = self.drawn_answers(came)?;
                Ok(Drawn { signs, more, sent })
            }
            _ => {
                let rail = self.actor_or_unit(actor, came);
                self.draw_actor(rail);
                self.draw_queueing(came, rail);
                self.draw_sending(came, rail)?;
                let signs = self.copied()?;
                let more = Vec::new(self.alloc);
                Ok(Drawn { signs, more, sent })
            }
        }
    }

    /// Who acts; a worker acts at the unit.
    fn actor_or_unit(&self, actor: Option<Rail>, came: &Came) -> Option<Rail> {
        match (actor, came.endpoint) {
            (None, Some(endpoint)) => self.unit_of(endpoint),
            _ => actor,
        }
    }

    /// Draws who acts.
    fn draw_actor(&mut self, actor: Option<Rail>) {
        if let Some(rail) = actor {
            self.set(rail.at, Sign::Dot);
        }
    }

    /// The second row of an event that delivers something, where it sends something too.
    fn drawn_answers(&mut self, came: &Came) -> Result<Vec<Sign>, AllocError> {
        if came.next <= came.first {
            return Ok(Vec::new(self.alloc));
        }
        self.rule()?;
        self.draw_sending(came, None)?;
        self.copied()
    }
}

/// The text below the first line of a report.
fn below_first(report: &[u8]) -> &[u8] {
    let mut lines = Lines::new(report);
    let _first = lines.next();
    lines.rest
}

/// Draws the events of a witness.
fn draw_all(
    alloc: Global,
    lines: &[&[u8]],
    ways: &Ways,
    rails: &Rails,
) -> Result<Vec<Drawn>, AllocError> {
    let mut pen = Pen::new(alloc, ways, rails)?;
    let mut rows = Vec::new(alloc);
    for line in lines {
        let at = rows.len();
        let actor = match rails.owner_of(alloc, ways, actor_in(line))? {
            Some(owner) => rails.rail(owner),
            None => None,
        };
        let drawn = match ways.came(at) {
            Some(came) => pen.draw(at, &came, actor)?,
            None => pen.draw_plain(actor)?,
        };
        rows.push(drawn)?;
    }
    Ok(rows)
}

/// Draws the witness of a report on a driver, which has these events.
pub(crate) fn sketch(
    alloc: Global,
    text: &[u8],
    report: &[u8],
    events: Lines<'_>,
) -> Result<Sketch, AllocError> {
    let mut wrongs = Vec::new(alloc);
    let driver = read_text(alloc, text, &mut wrongs)?;
    let lines = event_lines(alloc, events)?;
    let ways = ways_of(alloc, below_first(report), events.number)?;
    let mut rails = Rails::of(alloc, driver.as_ref(), lines.as_slice(), &ways)?;
    let rows = draw_all(alloc, lines.as_slice(), &ways, &rails)?;
    let mut heads = Vec::new(alloc);
    std::mem::swap(&mut heads, &mut rails.heads);
    Ok(Sketch { heads, rows })
}
