//! The lines of a driver, taken one after another.

ghost use Rattle.std.specs.Prelude.{◌≡◌, IfOk, slice_get};
ghost use Rattle.sva_search.specs.Rules.{IsStep};
ghost use Rattle.sva_open_safe.specs.Wrongs.{first_wrong};
ghost use Rattle.sva_judge.specs.Choices.{next_in};
ghost use Rattle.sva_driver_texts.specs.Texts as texts;

use crate::kept::Halt;
use crate::ways::is_past;
use std::alloc::{AllocError, Global};
use sva_judge::{Choice, Doing, Spot, start, take};
use sva_open::Driver;
use sva_open_safe::{Wrong, first_wrong};

/// The choice of a line.
fn choose_line(place: usize) -> Choice
    ensures { result ≡ texts.line_choice place }
{
    Choice {
        doing: Doing::Line,
        at: 0,
        number: place,
    }
}

/// Takes the line at a place, where that is permitted, and says whether it is.
fn take_line(driver: &Driver, spot: &mut Spot, place: usize) -> Result<bool, AllocError>
    ensures { IfOk result (λ taken. IsStep (next_in driver.now spot.old (texts.line_choice place)) taken
        spot.old spot.new) }
{
    take(driver, spot, choose_line(place))
}

/// What is wrong first at a spot, if anything is.
fn wrong_at(spot: &Spot) -> Option<Wrong>
    ensures { result ≡ first_wrong spot.now.world }
{
    first_wrong(&spot.world)
}

/// The number of the line at a place; 0 where there is none.
fn number_at(driver: &Driver, place: usize) -> u64
    ensures { result ≡ texts.number_of (slice_get driver.now.lines.items place) }
{
    match driver.lines.get(place) {
        Some(line) => line.number,
        None => 0,
    }
}

/// Whether the line at a place is left out: its thread has gone past it.
fn is_left_out(driver: &Driver, spot: &Spot, place: usize) -> bool
    ensures { result ≡ texts.is_left_out spot.now place (slice_get driver.now.lines.items place) }
{
    match driver.lines.get(place) {
        Some(line) => is_past(spot, place, line),
        None => false,
    }
}

/// Where so many lines lead, taken one after another: up to the first that isn't permitted where it stands, or behind
/// which something is wrong. Lines past which their thread has gone are left out.
pub fn take_lines(
    alloc: Global,
    driver: &Driver,
    count: usize,
) -> Result<Result<Spot, Halt>, AllocError>
    ensures { IfOk result (λ led. led ≡ texts.behind_first driver.now count) }
{
    let mut spot = start(alloc, driver)?;
    for place in 0..count {
        if is_left_out(driver, &spot, place) {
            continue;
        }
        let taken = take_line(driver, &mut spot, place)?;
        if !taken {
            return Ok(Err(Halt::Refused { place }));
        }
        if let Some(wrong) = wrong_at(&spot) {
            let number = number_at(driver, place);
            return Ok(Err(Halt::Leaks { number, wrong }));
        }
    }
    Ok(Ok(spot))
}
