// Slow mode: all marks of a stretch until the marker, and then the cuts. Cutter, stretch and list stay three parameters here as in cuts.rt.
ghost use Rattle.std.specs.Prelude.{◌≡◌, true, suc, ◌+◌, ◌-◌, ◌≤◌, length, IfSome, IfNone};
ghost use Rattle.signature.specs.Signatures.{signature_of, window};
ghost use Rattle.rule.specs.Rule.{Unmarked};
ghost use Rattle.cutting.specs.Marks.{mark};
ghost use Rattle.cutting.specs.Search.{Seek};
ghost use Rattle.board_record.specs.Records.{is_marker};
ghost use Rattle.board_record.specs.Stretches.{after_in, slow_in, Records};

use super::Recorded;
use super::cuts::record_cuts;
use super::stretch::Stretch;
use cutting::search::{Cutter, Spot};
use lists::Made;

// Whether a mark is the marker, after its neighbour before it.
#[tactic(auto, unfolding(crate::specs::Records::is_marker))]
fn is_marker(cutter: &Cutter, before: u64, mark: u64) -> bool
    requires { before ≤ mark }
    ensures { result ≡ is_marker cutter.now.marks.settings.minimum cutter.now.marks.settings.maximum before mark }
{
    let settings = cutter.marks.settings;
    let step = mark - before;
    settings.minimum <= step && step <= settings.maximum - settings.minimum
}

// The mark that follows a mark of a stretch.
fn next_mark(cutter: &Cutter, bytes: &[u8], spot: Spot) -> Option<Spot>
    requires { (48 ≤ spot.at) × (spot.at ≤ length bytes.now) × (spot.signature ≡ signature_of (window bytes.now (spot.at - 48))) }
    ensures found { IfSome result (λ next. Seek cutter.now.marks.settings bytes.now (spot.at + 1) (length bytes.now) next true) }
    ensures none { IfNone result (Unmarked (mark cutter.now.marks.settings bytes.now) (spot.at + 1) (suc (length bytes.now))) }
{
    let at = spot.at;
    if at == bytes.len() {
        return None;
    }
    let signature = cutter
        .marks
        .tables
        .roll(spot.signature, bytes[at - 48], bytes[at]);
    let onward = Spot {
        at: at + 1,
        signature,
    };
    cutter.marks.seek(bytes, onward, bytes.len()).ok()
}

// In slow mode from a mark on, the last that was put: every mark that follows it until the marker, and then the cuts.
fn record_after(
    cutter: &Cutter,
    stretch: &Stretch,
    first: Spot,
    mut made: Made,
    list: &mut [u64],
) -> Recorded
    requires first_mark { (48 ≤ first.at) × (first.at ≤ length stretch.now.bytes.now) × (first.signature ≡ signature_of (window stretch.now.bytes.now (first.at - 48))) }
    requires put { made.cut ≡ stretch.now.base + first.at }
    ensures { Records (after_in cutter.now.marks.settings stretch.now.bytes.now stretch.now.base first.at) made.count result list.old list.new }
{
    let mut spot = first;
    while let Some(next) = next_mark(cutter, stretch.bytes, spot) {
        let before = made.cut;
        let offset = stretch.base + next.at as u64;
        made.put(list, offset);
        if is_marker(cutter, before, offset) {
            let all = record_cuts(cutter, stretch, made, list);
            return Recorded {
                count: all.count,
                marker: offset,
            };
        }
        spot = next;
    }
    Recorded {
        count: made.count,
        marker: 0,
    }
}

// The record of a stretch past its lead-in: all marks in slow mode until the marker, and then the cuts.
pub fn record_marks(cutter: &Cutter, stretch: &Stretch, list: &mut [u64]) -> Recorded
    requires { 48 ≤ length stretch.now.bytes.now }
    ensures { Records (slow_in cutter.now.marks.settings stretch.now.bytes.now stretch.now.base) 0 result list.old list.new }
{
    let bytes = stretch.bytes;
    let start = Spot {
        at: 48,
        signature: cutter.marks.tables.of_window(&bytes[..48]),
    };
    match cutter.marks.seek(bytes, start, bytes.len()) {
        Ok(first) => {
            let mut made = Made::after(stretch.base);
            made.put(list, stretch.base + first.at as u64);
            record_after(cutter, stretch, first, made, list)
        }
        Err(_) => Recorded {
            count: 0,
            marker: 0,
        },
    }
}
