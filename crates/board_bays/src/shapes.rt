// The rows that every call on segments shares, and the board's shape. Sizes and numbers are any: nothing is multiplied before it is bounded,
// and only what these functions let through makes a Segment or a Board.
ghost use Rattle.std.specs.Prelude.{◌≡◌, ◌+◌, ◌≤◌, ◌^◌, min};
ghost use Rattle.terms.specs.Rows.{verdict};
ghost use Rattle.board_bays.specs.Segments.{segments, shape_fits, board_fits, bay_fits, segment_fits};
ghost use Rattle.board_bays.specs.Judging.{call_rows};

use terms::{Refusal, Settings};

// How many segments a log has.
pub fn segments_of(n: u64, size: u64) -> u64
    requires { 64 ≤ size }
    ensures { result ≡ segments n size }
{
    n.div_ceil(size)
}

// Where so many bytes from an offset on end, in a log of n bytes: a segment, or a piece.
pub fn end_of(n: u64, start: u64, size: u64) -> u64
    requires { (start ≤ n) × (n ≤ 2 ^ 40) × (size ≤ 2 ^ 24) }
    ensures { result ≡ min (start + size) n }
{
    (start + size).min(n)
}

#[tactic(auto, unfolding(crate::specs::Segments::shape_fits, crate::specs::Segments::size_in_range))]
pub fn shape_fits(size: u64, width: u64) -> bool
    ensures { result ≡ shape_fits size width }
{
    size >= 64 && size <= 16_777_216 && width >= 2
}

#[tactic(auto, unfolding(crate::specs::Segments::board_fits))]
pub fn board_fits(n: u64, size: u64, width: u64, numbers: u64) -> bool
    ensures { result ≡ board_fits n size width numbers }
{
    shape_fits(size, width) && segments_of(n, size) <= numbers / width
}

#[tactic(auto, unfolding(crate::specs::Segments::bay_fits))]
pub fn bay_fits(n: u64, size: u64, width: u64, i: u64) -> bool
    ensures { result ≡ bay_fits n size width i }
{
    shape_fits(size, width) && i < segments_of(n, size)
}

#[tactic(auto, unfolding(crate::specs::Segments::segment_fits))]
pub fn segment_fits(n: u64, size: u64, width: u64, i: u64, numbers: u64) -> bool
    ensures { result ≡ segment_fits n size width i numbers }
{
    board_fits(n, size, width, numbers) && i < segments_of(n, size)
}

// Rows 1, 2 and 7.
pub fn judge(settings: Settings, n: u64, fits: bool) -> Result<(), Refusal>
    ensures { result ≡ verdict (call_rows settings n fits) }
{
    if !settings.in_range() {
        return Err(Refusal::SettingsOutOfRange);
    }
    if n > terms::LONGEST {
        return Err(Refusal::LogTooLong);
    }
    if !fits {
        return Err(Refusal::NoSuchSegment);
    }
    Ok(())
}
