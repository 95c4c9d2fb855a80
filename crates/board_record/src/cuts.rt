// The one-pass cuts of a stretch, whatever follows it.
// (cutter, stretch, list) stay parameters, as at `lists::Made`: a struct that held the lent list would have to tell through itself what `list.new` tells at once.
ghost use Rattle.std.specs.Prelude.{◌≡◌, ◌+◌, ◌≤◌, ◌<◌, ◌^◌, length, IfSome, IfNone};
ghost use Rattle.rule.specs.Rule.{hop, cuts_up_to};
ghost use Rattle.cutting.specs.Marks.{mark};
ghost use Rattle.lists.specs.Puts.{Puts};
ghost use Rattle.board_record.specs.Stretches.{mark_from};

use super::stretch::Stretch;
use cutting::search::{Cutter, Spot};
use lists::Made;

// The cut that follows a cut of a stretch if it stays in it, whatever follows.
fn next_hop(cutter: &Cutter, bytes: &[u8], cut: usize) -> Option<usize>
    requires { (cut ≤ length bytes.now) × (length bytes.now ≤ 2 ^ 40) }
    ensures stays { IfSome result (λ next. (next ≤ length bytes.now)
        × (hop (mark cutter.now.marks.settings bytes.now) cutter.now.marks.settings.minimum cutter.now.marks.settings.maximum cut ≡ next)) }
    ensures leaves { IfNone result (length bytes.now < hop (mark cutter.now.marks.settings bytes.now) cutter.now.marks.settings.minimum cutter.now.marks.settings.maximum cut) }
{
    let settings = cutter.marks.settings;
    let at = cut + settings.minimum as usize;
    if at > bytes.len() {
        return None;
    }
    let last = (cut + settings.maximum as usize).min(bytes.len());
    let signature = cutter.marks.tables.of_window(&bytes[at - 48..at]);
    if let Ok(spot) = cutter.marks.seek(bytes, Spot { at, signature }, last) {
        return Some(spot.at);
    }
    if last - cut == settings.maximum as usize {
        return Some(last);
    }
    None
}

// The one-pass cuts of a stretch that follow a cut: what the record lists of them.
pub fn record_cuts(cutter: &Cutter, stretch: &Stretch, mut made: Made, list: &mut [u64]) -> Made
    requires { (stretch.now.base ≤ made.cut) × (made.cut ≤ stretch.now.base + length stretch.now.bytes.now) }
    ensures { Puts (cuts_up_to (mark_from cutter.now.marks.settings stretch.now.bytes.now stretch.now.base)
        cutter.now.marks.settings.minimum cutter.now.marks.settings.maximum (stretch.now.base + length stretch.now.bytes.now) made.cut) made result list.old list.new }
{
    while let Some(next) = next_hop(cutter, stretch.bytes, (made.cut - stretch.base) as usize) {
        made.put(list, stretch.base + next as u64);
    }
    made
}
