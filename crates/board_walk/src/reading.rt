// The offsets of a bay read, as marks or as cuts, and the cuts that maximum forces. That offsets rise from the last cut made is a fact of both
// at once, so each contract says it: no type holds the two but for the one call.
// (list, made, rule) stay parameters, as at `lists::Made`: a struct that held the lent list would have to tell through itself what `list.new` tells at once.
ghost use Rattle.std.specs.Prelude.{◌≡◌, true, ◌≤◌, ◌<◌, ◌^◌};
ghost use Rattle.board_bays.specs.Bays.{rises_within};
ghost use Rattle.board_walk.specs.Walk.{forced_up_to, read_offset, read_as_marks};
ghost use Rattle.lists.specs.Puts.{Puts};

use board_bays::reading::Record;
use lists::Made;
use terms::Checked;

// The cuts that maximum forces, up to an offset.
pub fn force_cuts(list: &mut [u64], mut made: Made, rule: Checked, last: u64) -> Made
    requires { made.cut ≤ last }
    ensures { Puts (forced_up_to rule.settings.maximum last made.cut) made result list.old list.new }
{
    let maximum = rule.settings.maximum;
    while last - made.cut >= maximum {
        let cut = made.cut + maximum;
        made.put(list, cut);
    }
    made
}

// One offset read as a mark: cuts are forced below it, and it is a cut if it is far enough.
fn read_offset(list: &mut [u64], made: Made, rule: Checked, p: u64) -> Made
    requires { made.cut < p }
    ensures { Puts (read_offset rule.settings.minimum rule.settings.maximum made.cut p) made result list.old list.new }
{
    let mut forced = force_cuts(list, made, rule, p - 1);
    if p - forced.cut >= rule.settings.minimum {
        forced.put(list, p);
    }
    forced
}

// Offsets that are cuts.
pub fn take_offsets(list: &mut [u64], mut made: Made, offsets: &[u64]) -> Made
    requires { rises_within made.cut (2 ^ 40) offsets.now ≡ true }
    ensures { Puts offsets.now made result list.old list.new }
{
    for p in offsets {
        made.put(list, *p);
    }
    made
}

// Offsets read as marks until a cut made equals the marker; then the later ones are cuts.
pub fn read_as_marks(list: &mut [u64], mut made: Made, rule: Checked, noted: &Record) -> Made
    requires { rises_within made.cut (2 ^ 40) noted.now.offsets.now ≡ true }
    ensures { Puts (read_as_marks rule.settings.minimum rule.settings.maximum noted.now.marker made.cut noted.now.offsets.now) made result list.old list.new }
{
    let offsets = noted.offsets;
    for (k, p) in offsets.iter().enumerate() {
        made = read_offset(list, made, rule, *p);
        if made.cut == *p && *p == noted.marker {
            return take_offsets(list, made, &offsets[k + 1..]);
        }
    }
    made
}
