//! The live spaces and the frames.

ghost use Rattle.std.specs.Prelude.{◌≡◌, IfOk, map};
ghost use Rattle.sva_frames.specs.Reading.{holding_of};
ghost use Rattle.sva_address_spaces.specs.Lives.{spaces_seen};
ghost use Rattle.sva_snapshot.specs.Shown.{space_shown};

use std::alloc::{AllocError, Global};
use sva_address_spaces::LiveSpace;
use sva_frames::{FramePool, Held};
use sva_space::Mapping;

/// A live space.
#[derive(Drop, Clone, PartialEq, Eq)]
pub struct Space {
    /// Its number.
    pub number: u64,
    /// Its mapped pages, in rising order.
    pub pages: Vec<Mapping>,
}

/// The live spaces, in the order in which they began.
pub(crate) fn spaces_of(alloc: Global, lives: &[LiveSpace]) -> Result<Vec<Space>, AllocError>
    ensures { IfOk result (λ spaces. map space_shown spaces.items ≡ spaces_seen lives.now) }
{
    let mut spaces = Vec::new(alloc);
    for live in lives {
        spaces.push(Space {
            number: live.number,
            pages: live.space.list(alloc)?,
        })?;
    }
    Ok(spaces)
}

/// Where each frame is, by its number, and what it waits for.
pub(crate) fn frames_of(alloc: Global, pool: &FramePool) -> Result<Vec<Held>, AllocError>
    ensures { IfOk result (λ frames. map holding_of frames.items ≡ pool.now) }
{
    let mut frames = Vec::new(alloc);
    for number in 0..pool.len() {
        frames.push(pool.held(number as u32))?;
    }
    Ok(frames)
}
