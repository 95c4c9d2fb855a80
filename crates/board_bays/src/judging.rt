// Whether a bay is done and not malformed.
ghost use Rattle.std.specs.Prelude.{ℕ, Bool, ◌≡◌, ◌==◌, true, ◌<◌, ◌^◌, position};
ghost use Rattle.terms.specs.Rows.{verdict};
ghost use Rattle.board_bays.specs.Segments.{segments};
ghost use Rattle.board_bays.specs.Bays.{rises_within, steps_within, from_marker, marker_fits, is_sound, is_done};
ghost use Rattle.board_bays.specs.Inner.{each_step};
ghost use Rattle.board_bays.specs.Judging.{bay_rows, bays_rows};

use super::reading::{Bay, Record};
use super::segments::{Board, Segment};
use terms::{Refusal, Settings};

// Whether each step passes a test: from an offset to the first of a list, and from one to the next.
fn each_step<F: Fn(u64, u64) -> bool>(from: u64, offsets: &[u64], fits: F) -> bool
    requires { F.IsAlwaysCallable fits }
    ensures { (test : ℕ → ℕ → Bool) → ((a p : ℕ) (r : Bool) → a < 2 ^ 64 → p < 2 ^ 64 → F.post fits a p r → r ≡ test a p) → result ≡ each_step test from offsets.now }
{
    let mut before = from;
    for p in offsets {
        if !fits(before, *p) {
            return false;
        }
        before = *p;
    }
    true
}

// Whether offsets strictly rise from above one offset and stay at or below another.
fn rises_within(offsets: &[u64], above: u64, last: u64) -> bool
    ensures { result ≡ rises_within above last offsets.now }
{
    each_step(above, offsets, |before, p| before < p && p <= last)
}

// Whether every step from a cut on is between minimum and maximum.
fn steps_within(settings: Settings, offsets: &[u64], cut: u64) -> bool
    ensures { result ≡ steps_within settings.minimum settings.maximum cut offsets.now }
{
    each_step(
        cut,
        offsets,
        |before, p| lists::step_fits(settings, false, before, p),
    )
}

// The place of the first offset that equals one.
fn place_of(offsets: &[u64], offset: u64) -> Option<usize>
    ensures { result ≡ position (λ p. p == offset) offsets.now }
{
    offsets.iter().position(|p| *p == offset)
}

// In any segment but the first: whether the marker is 0 or listed, and every step from it on fits.
fn marker_listed(settings: Settings, offsets: &[u64], marker: u64) -> bool
    ensures { result ≡ from_marker settings.minimum settings.maximum marker offsets.now }
{
    match place_of(offsets, marker) {
        Some(k) => steps_within(settings, &offsets[k + 1..], marker),
        None => marker == 0,
    }
}

// Whether the marker and the steps of a record fit its segment.
fn marker_fits(settings: Settings, i: u64, noted: &Record) -> bool
    ensures { result ≡ marker_fits settings.minimum settings.maximum i (record { marker = noted.now.marker; offsets = noted.now.offsets.now }) }
{
    if i > 0 {
        marker_listed(settings, noted.offsets, noted.marker)
    } else {
        noted.marker == 0 && steps_within(settings, noted.offsets, 0)
    }
}

// Whether the bay of a segment, which is done, is not malformed.
fn is_sound(settings: Settings, segment: Segment, bay: Bay) -> bool
    requires { is_done bay.numbers.now ≡ true }
    ensures { result ≡ is_sound settings segment.n segment.size segment.i bay.entry.numbers.now }
{
    if bay.numbers[0] - 1 > bay.numbers.len() as u64 - 2 {
        return false;
    }
    let noted = bay.record();
    rises_within(noted.offsets, segment.start(), segment.end())
        && marker_fits(settings, segment.i, &noted)
}

// Rows 8 and 9 for the bay of a segment.
fn judge_bay(settings: Settings, segment: Segment, bay: Bay) -> Result<(), Refusal>
    ensures { result ≡ verdict (bay_rows settings segment.n segment.size segment.i bay.entry.numbers.now) }
{
    if bay.numbers[0] == 0 {
        return Err(Refusal::BayNotDone);
    }
    if !is_sound(settings, segment, bay) {
        return Err(Refusal::BayMalformed);
    }
    Ok(())
}

// Rows 8 and 9 for all bays, from the lowest.
pub fn judge_bays(settings: Settings, board: &Board) -> Result<(), Refusal>
    ensures { result ≡ verdict (bays_rows settings board.now.n board.now.size board.now.width board.now.numbers.now (segments board.now.n board.now.size) 0) }
{
    for i in 0..board.bays() {
        let segment = Segment {
            n: board.n,
            size: board.size,
            i,
        };
        judge_bay(settings, segment, board.bay(i))?;
    }
    Ok(())
}
