//! What is read of a frame beside its place: what it waits for.

ghost use Rattle.std.specs.Prelude.{◌≡◌, ◌<◌, Some, None, length, slice_get, slice_index_or};
ghost use Rattle.sva_frames.specs.declared.waits.TheConstants.{UNITS};
ghost use Rattle.sva_frames.specs.Pool.{row};

use crate::lane::Lane;
use crate::ledger::Stage;
use crate::pool::FramePool;
use crate::waits::{Target, UNITS};

/// Where a frame is, and what a withheld one waits for.
#[derive(Clone, Copy, PartialEq, Eq)]
pub enum Held {
    /// In the pool, to be taken.
    Free,
    /// Handed out by `take`.
    Mapped,
    /// Out of every space, and still waited for.
    Withheld {
        /// At each unit, by its number: what the frame waits for there.
        targets: [Option<Target>; UNITS],
    },
}

impl Lane {
    /// What a frame waits for here.
    fn target(&self, frame: u32) -> Option<Target>
        ensures { result ≡ slice_index_or self.now frame None }
    {
        match self.cells.get(frame as usize) {
            Some(cell) => cell.target,
            None => None,
        }
    }
}

/// What a frame waits for at each of the lanes.
fn row_of(lanes: &[Lane], frame: u32) -> [Option<Target>; UNITS]
    requires { length lanes.now ≡ UNITS }
    ensures { result ≡ row lanes.now frame }
{
    let mut targets = [None; UNITS];
    for (unit, lane) in lanes.iter().enumerate() {
        targets[unit] = lane.target(frame);
    }
    targets
}

impl FramePool {
    ghost use Rattle.sva_frames.specs.Reading.{holding_of};

    /// Where the frame of this number is, which is below the number of frames, and what it waits for.
    pub fn held(&self, number: u32) -> Held
        requires { number < length self.now }
        ensures { slice_get self.now number ≡ Some (holding_of result) }
    {
        match self.ledger.get(number as usize) {
            Stage::Free => Held::Free,
            Stage::Mapped => Held::Mapped,
            Stage::Withheld(_) => Held::Withheld {
                targets: row_of(&self.lanes, number),
            },
        }
    }
}
