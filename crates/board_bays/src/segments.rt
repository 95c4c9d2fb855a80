// A segment of a log that is there, and a board that is as long as its bays.
ghost use Rattle.std.specs.Prelude.{◌≡◌, true, ◌≤◌, ◌^◌, length};
ghost use Rattle.board_bays.specs.Segments.{board_fits, There};

use super::reading::{Bay, bay_at};
use super::shapes::{end_of, segments_of};

// Segment i of a log of n bytes.
#[derive(Clone, Copy)]
pub struct Segment {
    pub n: u64,
    pub size: u64,
    pub i: u64,
    pub ghost there: { There n size i },
}

impl Segment {
    ghost use Rattle.board_bays.specs.Segments.{segment_start, segment_end};

    // The offset above which it begins.
    pub fn start(self) -> u64
        ensures { result ≡ segment_start self.size self.i }
    {
        self.i * self.size
    }

    // The last of its offsets.
    pub fn end(self) -> u64
        ensures { result ≡ segment_end self.n self.size self.i }
    {
        end_of(self.n, self.start(), self.size)
    }
}

// The bays of a log of n bytes, each of so many numbers, one after the other.
#[derive(Clone, Copy)]
pub struct Board<'a> {
    pub n: u64,
    pub size: u64,
    pub width: u64,
    pub numbers: &'a [u64],
    pub ghost bounded: { n ≤ 2 ^ 40 },
    pub ghost fits: { board_fits n size width (length numbers.now) ≡ true },
}

impl<'a> Board<'a> {
    ghost use Rattle.std.specs.Prelude.{◌<◌};
    ghost use Rattle.board_bays.specs.Segments.{segments};
    ghost use Rattle.board_bays.specs.Bays.{bay_of};

    // How many bays it has.
    pub fn bays(&self) -> u64
        ensures { result ≡ segments self.now.n self.now.size }
    {
        segments_of(self.n, self.size)
    }

    // Bay i.
    pub fn bay(&self, i: u64) -> Bay<'a>
        requires { i < segments self.now.n self.now.size }
        ensures { result.numbers.now ≡ bay_of self.now.width i self.now.numbers.now }
    {
        Bay {
            numbers: bay_at(self.width, i, self.numbers),
        }
    }
}
