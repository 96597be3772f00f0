//! The rails of a driver's chart: of each thread, of each unit at which something happens, and of each such endpoint.

use crate::events::actor_in;
use crate::sketch::Head;
use crate::ways::{Came, Ways};
use std::alloc::{AllocError, Global};
use sva_driver_texts::Read;
use sva_script::{is, split};
use sva_step::MOST_ENDPOINTS;

/// How far apart two rails are at least.
const GAP: usize = 7;

/// How far apart lanes are, and the first and last from the rails beside them.
const LANE: usize = 3;

/// Whose a rail is.
#[derive(Clone, Copy, PartialEq, Eq)]
pub(crate) enum Owner {
    /// A thread's, by its place.
    Thread(usize),
    /// A unit's, by the number that its endpoints have for it.
    Unit(usize),
    /// An endpoint's.
    Endpoint(usize),
}

/// A rail.
#[derive(Clone, Copy)]
pub(crate) struct Rail {
    pub(crate) owner: Owner,
    /// Its column.
    pub(crate) at: usize,
    /// Of an endpoint's, the column of its first lane.
    pub(crate) lane: usize,
}

/// The rails, from left to right.
#[derive(Drop)]
pub(crate) struct Rails {
    pub(crate) rails: Vec<Rail>,
    pub(crate) heads: Vec<Head>,
    /// The names of the threads.
    threads: Vec<Vec<u8>>,
    /// How wide they are, with the last name and two spaces.
    pub(crate) width: usize,
    /// Where the last name ends.
    end: usize,
}

impl Rails {
    /// The rails of a witness of a driver, by its events and by the ways of its messages.
    pub(crate) fn of(
        alloc: Global,
        driver: Option<&Read>,
        events: &[&[u8]],
        ways: &Ways,
    ) -> Result<Self, AllocError> {
        let mut rails = Rails {
            rails: Vec::new(alloc),
            heads: Vec::new(alloc),
            threads: Vec::new(alloc),
            width: 0,
            end: 0,
        };
        if let Some(read) = driver {
            rails.put_threads(alloc, read)?;
        }
        let touched = touched_in(alloc, &rails, events, ways)?;
        for unit in 0..MOST_ENDPOINTS {
            rails.put_unit(alloc, ways, touched.as_slice(), unit)?;
        }
        Ok(rails)
    }

    /// Where a rail is, if it is there.
    pub(crate) fn rail(&self, owner: Owner) -> Option<Rail> {
        for rail in self.rails.as_slice() {
            if rail.owner == owner {
                return Some(*rail);
            }
        }
        None
    }

    /// Whose rail an event is at, by the name of who acts.
    pub(crate) fn owner_of(
        &self,
        alloc: Global,
        ways: &Ways,
        actor: &[u8],
    ) -> Result<Option<Owner>, AllocError> {
        let mut place: usize = 0;
        for thread in self.threads.as_slice() {
            if is(thread.as_slice(), actor) {
                return Ok(Some(Owner::Thread(place)));
            }
            place = place.saturating_add(1);
        }
        own_in(alloc, ways, actor)
    }

    /// Adds a rail with its name, at this column or further to the right.
    fn put(&mut self, rail: Rail, name: Vec<u8>, numbers: Vec<usize>) -> Result<(), AllocError> {
        let at = rail.at.max(self.width);
        let long = name.len().saturating_add(numbers.len().saturating_mul(2));
        let blanks = at.saturating_sub(self.end);
        self.end = at.saturating_add(long);
        self.width = at.saturating_add(long.saturating_add(2).max(GAP));
        self.rails.push(Rail { at, ..rail })?;
        self.heads.push(Head {
            blanks,
            name,
            numbers,
        })?;
        Ok(())
    }

    /// Adds a rail for each thread that has lines behind `race`, but for those of link, units and endpoints.
    fn put_threads(&mut self, alloc: Global, read: &Read) -> Result<(), AllocError> {
        let none = Ways::new(alloc);
        for place in read.before..read.said.len() {
            if let Some(said) = read.said.get(place) {
                let name = said.thread.as_slice();
                if self.owner_of(alloc, &none, name)?.is_none() && !is(name, b"link") {
                    let number = self.threads.len();
                    self.threads.push(Vec::from_slice(alloc, name)?)?;
                    let rail = Rail {
                        owner: Owner::Thread(number),
                        at: 0,
                        lane: 0,
                    };
                    self.put(rail, Vec::from_slice(alloc, name)?, Vec::new(alloc))?;
                }
            }
        }
        Ok(())
    }

    /// Adds the rails of a unit and of its endpoints, where something happens there.
    fn put_unit(
        &mut self,
        alloc: Global,
        ways: &Ways,
        touched: &[Owner],
        unit: usize,
    ) -> Result<(), AllocError> {
        let mut is_touched = is_among(touched, Owner::Unit(unit));
        let mut numbers = Vec::new(alloc);
        for endpoint in 0..MOST_ENDPOINTS {
            if ways.unit_of(endpoint) == unit && ways.is_there(endpoint) {
                numbers.push(endpoint)?;
                is_touched = is_touched || is_among(touched, Owner::Endpoint(endpoint));
            }
        }
        if !is_touched {
            return Ok(());
        }
        let rail = Rail {
            owner: Owner::Unit(unit),
            at: 0,
            lane: 0,
        };
        self.put(rail, Vec::from_slice(alloc, b"unit")?, numbers)?;
        for endpoint in 0..MOST_ENDPOINTS {
            if ways.unit_of(endpoint) == unit && is_among(touched, Owner::Endpoint(endpoint)) {
                self.put_endpoint(alloc, ways, endpoint)?;
            }
        }
        Ok(())
    }

    /// Adds the rail of an endpoint, with its lanes before it.
    fn put_endpoint(
        &mut self,
        alloc: Global,
        ways: &Ways,
        endpoint: usize,
    ) -> Result<(), AllocError> {
        let before = match self.rails.as_slice().last() {
            Some(rail) => rail.at,
            None => 0,
        };
        let lane = before.saturating_add(LANE);
        let lanes = ways.lanes(endpoint).saturating_mul(LANE);
        let mut numbers = Vec::new(alloc);
        numbers.push(endpoint)?;
        let rail = Rail {
            owner: Owner::Endpoint(endpoint),
            at: lane.saturating_add(lanes),
            lane,
        };
        self.put(rail, Vec::from_slice(alloc, b"endpoint")?, numbers)
    }
}

/// Whether a rail is among some.
fn is_among(owners: &[Owner], owner: Owner) -> bool {
    owners.iter().any(|other| *other == owner)
}

/// The number that a digit is.
fn digit_in(word: &[u8]) -> Option<usize> {
    match word {
        [digit] if b'0' <= *digit && *digit <= b'9' => Some((*digit - b'0') as usize),
        _ => None,
    }
}

/// The unit or the endpoint of a name, if it is that of one. Workers are at no unit of their own.
fn own_in(alloc: Global, ways: &Ways, name: &[u8]) -> Result<Option<Owner>, AllocError> {
    let mut words = Vec::new(alloc);
    split(name, &mut words)?;
    let (Some(word), Some(number)) = (words.as_slice().first(), words.as_slice().get(1)) else {
        return Ok(None);
    };
    let Some(digit) = digit_in(number) else {
        return Ok(None);
    };
    if is(word, b"unit") {
        Ok(Some(Owner::Unit(ways.unit_of(digit))))
    } else if is(word, b"endpoint") {
        Ok(Some(Owner::Endpoint(digit)))
    } else {
        Ok(None)
    }
}

/// Notes a rail at which something happens.
fn touch(touched: &mut Vec<Owner>, owner: Owner) -> Result<(), AllocError> {
    if !is_among(touched.as_slice(), owner) {
        touched.push(owner)?;
    }
    Ok(())
}

/// Notes at which rails something happens by what comes of an event: a message's endpoint, and where that has a unit of
/// its own that of an act; else the unit.
fn touch_by(touched: &mut Vec<Owner>, ways: &Ways, came: &Came) -> Result<(), AllocError> {
    if let Some(endpoint) = came.endpoint {
        let owner = if ways.is_alone(endpoint) {
            Owner::Endpoint(endpoint)
        } else {
            Owner::Unit(ways.unit_of(endpoint))
        };
        touch(touched, owner)?;
    }
    if let Some(way) = ways.delivered(came) {
        touch(touched, Owner::Endpoint(way.endpoint))?;
    }
    for number in came.first..came.next {
        if let Some(way) = ways.ways.get(number) {
            touch(touched, Owner::Endpoint(way.endpoint))?;
        }
    }
    Ok(())
}

/// At which rails of units and endpoints something happens.
fn touched_in(
    alloc: Global,
    rails: &Rails,
    events: &[&[u8]],
    ways: &Ways,
) -> Result<Vec<Owner>, AllocError> {
    let mut touched = Vec::new(alloc);
    let mut place: usize = 0;
    for line in events {
        if let Some(owner) = rails.owner_of(alloc, ways, actor_in(line))? {
            touch(&mut touched, owner)?;
        }
        if let Some(came) = ways.came(place) {
            touch_by(&mut touched, ways, &came)?;
        }
        place = place.saturating_add(1);
    }
    Ok(touched)
}
