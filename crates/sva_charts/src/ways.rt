//! The ways of a witness's messages: its lines are taken one after another, and what is in flight before and behind each
//! is compared.

use std::alloc::{AllocError, Global};
use sva_driver_texts::{Read, read_text};
use sva_judge::{Choice, Doing, Spot, start, take};
use sva_open::{Act, LocalAct, Message, Saying, found};

/// A message, from its sending to its end.
#[derive(Clone, Copy)]
pub(crate) struct Way {
    pub(crate) endpoint: usize,
    pub(crate) message: Message,
    /// Whether it is in flight no more.
    pub(crate) is_over: bool,
    /// The place of the event that delivers it, or by which it is lost, unless that was before all events.
    pub(crate) end: Option<usize>,
    /// Whether it is lost.
    pub(crate) is_lost: bool,
    /// Its lane at its endpoint, from 0: the lowest that was free.
    pub(crate) lane: usize,
}

/// What comes of an event.
#[derive(Clone, Copy)]
pub(crate) struct Came {
    /// The endpoint at which it is, if it is at one.
    pub(crate) endpoint: Option<usize>,
    /// Whether it queues descriptors.
    pub(crate) queues: bool,
    /// Which message it delivers, if it delivers one.
    pub(crate) delivered: Option<usize>,
    /// The number of the first message that it sends, and that behind the last.
    pub(crate) first: usize,
    pub(crate) next: usize,
}

/// A lane of an endpoint, and whether a message is in it.
#[derive(Clone, Copy)]
struct Lane {
    endpoint: usize,
    is_free: bool,
}

/// The ways of a witness's messages.
#[derive(Drop)]
pub(crate) struct Ways {
    /// What comes of each event that is no comment; of others nothing.
    pub(crate) events: Vec<Option<Came>>,
    /// All messages, in the order in which they were sent.
    pub(crate) ways: Vec<Way>,
    /// How many of them were sent before all events.
    pub(crate) before: usize,
    /// Of each endpoint, which unit it has.
    pub(crate) units: Vec<usize>,
    /// The messages that are in flight, by their places.
    aloft: Vec<usize>,
    lanes: Vec<Lane>,
}

impl Ways {
    /// No event yet, and no message.
    pub(crate) fn new(alloc: Global) -> Self {
        Ways {
            events: Vec::new(alloc),
            ways: Vec::new(alloc),
            before: 0,
            units: Vec::new(alloc),
            aloft: Vec::new(alloc),
            lanes: Vec::new(alloc),
        }
    }

    /// How many lanes an endpoint needs at once.
    pub(crate) fn lanes(&self, endpoint: usize) -> usize {
        let mut lanes: usize = 0;
        for lane in self.lanes.as_slice() {
            if lane.endpoint == endpoint {
                lanes = lanes.saturating_add(1);
            }
        }
        lanes
    }

    /// The unit of an endpoint.
    pub(crate) fn unit_of(&self, endpoint: usize) -> usize {
        self.units.get(endpoint).copied().unwrap_or(endpoint)
    }

    /// Is there such an endpoint? Where nothing was read there may be any.
    pub(crate) fn is_there(&self, endpoint: usize) -> bool {
        self.units.is_empty() || endpoint < self.units.len()
    }

    /// Whether an endpoint has a unit of its own.
    pub(crate) fn is_alone(&self, endpoint: usize) -> bool {
        let unit = self.unit_of(endpoint);
        let mut count: usize = 0;
        for own in self.units.as_slice() {
            if *own == unit {
                count = count.saturating_add(1);
            }
        }
        count < 2
    }

    /// The message that an event delivers, if it delivers one.
    pub(crate) fn delivered(&self, came: &Came) -> Option<Way> {
        self.ways.get(came.delivered?).copied()
    }

    /// What comes of the event at a place.
    pub(crate) fn came(&self, place: usize) -> Option<Came> {
        self.events.get(place).copied()?
    }

    /// The message at this place among those of an endpoint that are in flight.
    fn aloft_at(&self, endpoint: usize, place: usize) -> Option<usize> {
        let mut left = place;
        for number in self.aloft.as_slice() {
            if let Some(way) = self.ways.get(*number) {
                if way.endpoint == endpoint {
                    if left == 0 {
                        return Some(*number);
                    }
                    left = left.saturating_sub(1);
                }
            }
        }
        None
    }

    /// Notes the end of a message.
    fn end(&mut self, number: usize, event: Option<usize>, is_lost: bool) {
        self.aloft.retain(|other| *other != number);
        let Some(way) = self.ways.get(number).copied() else {
            return;
        };
        if let Some(place) = self.ways.as_mut_slice().get_mut(number) {
            *place = Way {
                is_over: true,
                end: event,
                is_lost,
                ..way
            };
        }
        self.free_lane(way.endpoint, way.lane);
    }

    /// Notes what is in flight at an endpoint: which messages are lost, and which are new.
    fn compare(
        &mut self,
        alloc: Global,
        spot: &Spot,
        endpoint: usize,
        event: Option<usize>,
    ) -> Result<(), AllocError> {
        let Some(part) = spot.world.parts.get(endpoint) else {
            return Ok(());
        };
        let mut lost = Vec::new(alloc);
        let mut kept: usize = 0;
        for number in self.aloft.as_slice() {
            if let Some(way) = self.ways.get(*number) {
                if way.endpoint == endpoint {
                    match part.flight.get(kept) {
                        Some(sent) if sent.message == way.message => kept = kept.saturating_add(1),
                        _ => lost.push(*number)?,
                    }
                }
            }
        }
        for number in lost.as_slice() {
            self.end(*number, event, true);
        }
        for place in kept..part.flight.len() {
            if let Some(sent) = part.flight.get(place) {
                self.send(endpoint, sent.message)?;
            }
        }
        Ok(())
    }

    /// Notes a message that is sent, in a lane of its own.
    fn send(&mut self, endpoint: usize, message: Message) -> Result<(), AllocError> {
        let lane = self.take_lane(endpoint)?;
        self.aloft.push(self.ways.len())?;
        self.ways.push(Way {
            endpoint,
            message,
            is_over: false,
            end: None,
            is_lost: false,
            lane,
        })?;
        Ok(())
    }

    /// Takes the lowest lane of an endpoint that is free, or a new one.
    fn take_lane(&mut self, endpoint: usize) -> Result<usize, AllocError> {
        let mut number: usize = 0;
        for lane in self.lanes.as_mut_slice() {
            if lane.endpoint == endpoint {
                if lane.is_free {
                    lane.is_free = false;
                    return Ok(number);
                }
                number = number.saturating_add(1);
            }
        }
        self.lanes.push(Lane {
            endpoint,
            is_free: false,
        })?;
        Ok(number)
    }

    /// Frees a lane of an endpoint.
    fn free_lane(&mut self, endpoint: usize, freed: usize) {
        let mut number: usize = 0;
        for lane in self.lanes.as_mut_slice() {
            if lane.endpoint == endpoint {
                if number == freed {
                    lane.is_free = true;
                    return;
                }
                number = number.saturating_add(1);
            }
        }
    }

    /// Notes what comes of the event at a place.
    fn note(&mut self, place: usize, came: Came) -> Result<(), AllocError> {
        for _missing in self.events.len()..place.saturating_add(1) {
            self.events.push(None)?;
        }
        if let Some(event) = self.events.as_mut_slice().get_mut(place) {
            *event = Some(came);
        }
        Ok(())
    }
}

/// The endpoint at which a line acts, if it acts at one.
fn endpoint_of(saying: &Saying) -> Option<usize> {
    match saying {
        Saying::Does {
            act: Act::At { endpoint, .. },
        }
        | Saying::Names { endpoint, .. }
        | Saying::AwaitsWaits { endpoint, .. } => Some(*endpoint),
        _ => None,
    }
}

/// Whether a line queues descriptors.
fn is_submit(saying: &Saying) -> bool {
    match saying {
        Saying::Does {
            act: Act::At { act, .. },
        } => matches!(act, LocalAct::Submit { .. }),
        _ => false,
    }
}

/// The endpoint at which a line delivers a message, and its place among those in flight there.
fn delivery_of(spot: &Spot, saying: &Saying) -> Option<(usize, usize)> {
    let Saying::Names { endpoint, named } = saying else {
        return None;
    };
    let part = spot.world.parts.get(*endpoint)?;
    match found(part, *named) {
        Some(LocalAct::Deliver { place }) => Some((*endpoint, place)),
        _ => None,
    }
}

/// Notes what comes of a line that was taken.
fn note_line(
    alloc: Global,
    spot: &Spot,
    ways: &mut Ways,
    saying: &Saying,
    delivery: Option<(usize, usize)>,
    event: Option<usize>,
) -> Result<(), AllocError> {
    let delivered = match delivery {
        Some((endpoint, at)) => ways.aloft_at(endpoint, at),
        None => None,
    };
    if let Some(number) = delivered {
        ways.end(number, event, false);
    }
    let first = ways.ways.len();
    for endpoint in 0..spot.world.parts.len() {
        ways.compare(alloc, spot, endpoint, event)?;
    }
    let came = Came {
        endpoint: endpoint_of(saying),
        queues: is_submit(saying),
        delivered,
        first,
        next: ways.ways.len(),
    };
    match event {
        Some(at) => ways.note(at, came),
        None => {
            ways.before = came.next;
            Ok(())
        }
    }
}

/// Takes the line at a place, and notes what comes of it. Says whether it is permitted.
fn take_line(
    alloc: Global,
    read: &Read,
    spot: &mut Spot,
    ways: &mut Ways,
    place: usize,
    race: u64,
) -> Result<bool, AllocError> {
    let Some(line) = read.opening.lines.get(place) else {
        return Ok(false);
    };
    let delivery = delivery_of(spot, &line.saying);
    let choice = Choice {
        doing: Doing::Line,
        at: 0,
        number: place,
    };
    let taken = take(&read.opening, spot, choice)?;
    if !taken {
        return Ok(false);
    }
    let event = if line.number < race {
        None
    } else {
        Some((line.number - race) as usize)
    };
    note_line(alloc, spot, ways, &line.saying, delivery, event)?;
    Ok(true)
}

/// Of each endpoint, which unit it has.
fn units_of(alloc: Global, spot: &Spot) -> Result<Vec<usize>, AllocError> {
    Vec::from_slice(alloc, spot.world.units.as_slice())
}

/// The ways of the messages of a witness, which is read as a driver whose line `race` is the first of its events. Where it
/// can't be read, there are none.
pub(crate) fn ways_of(alloc: Global, witness: &[u8], race: u64) -> Result<Ways, AllocError> {
    let mut ways = Ways::new(alloc);
    let mut wrongs = Vec::new(alloc);
    let Some(read) = read_text(alloc, witness, &mut wrongs)? else {
        return Ok(ways);
    };
    let mut spot = start(alloc, &read.opening)?;
    ways.units = units_of(alloc, &spot)?;
    for place in 0..read.opening.lines.len() {
        let taken = take_line(alloc, &read, &mut spot, &mut ways, place, race)?;
        if !taken {
            return Ok(ways);
        }
    }
    Ok(ways)
}
