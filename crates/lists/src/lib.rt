// Lists of cuts: when one is well formed, and writing one.
#![tactic(auto)]

ghost use Rattle.std.specs.Prelude.{◌≡◌, ◌≤◌, ◌<◌, [], ◌∷◌, set};
ghost use Rattle.lists.specs.WellFormed.{step_fits, well_formed};

use terms::Settings;

// Whether the step from one entry to the next is allowed. The numbers are any: that they rise is seen before they are subtracted.
#[tactic(auto, unfolding(crate::specs::WellFormed::step_fits))]
pub fn step_fits(settings: Settings, last: bool, before: u64, entry: u64) -> bool
    ensures { result ≡ step_fits settings.minimum settings.maximum last before entry }
{
    entry > before
        && entry - before <= settings.maximum
        && (last || entry - before >= settings.minimum)
}

// Whether a list is empty, or rises from 0 by allowed steps to 2^40 at most. It stays a call of its own: within a longer function its loop is
// short of registers and takes up to twice the time.
#[inline(never)]
pub fn well_formed(settings: Settings, list: &[u64]) -> bool
    ensures { result ≡ well_formed settings.minimum settings.maximum list.now }
{
    let mut before = 0;
    for (i, entry) in list.iter().enumerate() {
        if !step_fits(settings, i + 1 == list.len(), before, *entry) {
            return false;
        }
        before = *entry;
    }
    before <= terms::LONGEST
}

// Writes one entry, if the list has that place.
pub fn put(list: &mut [u64], place: u64, entry: u64)
    ensures { list.new ≡ set list.old place entry }
{
    if place < list.len() as u64 {
        list[place as usize] = entry;
    }
}

// Cuts made one after the other and put into a lent list: how many, and the last of them. Cuts rise from above 0, so there are never more
// than the last one says. They are counted on past a full list, which no longer takes them, so that only the end asks whether all were written.
// List and made stay two parameters: a struct that held the lent list would have to tell through itself what `list.new` tells at once.
#[derive(Clone, Copy)]
pub struct Made {
    pub count: u64,
    pub cut: u64,
    pub ghost behind: { count ≤ cut },
}

impl Made {
    ghost use Rattle.lists.specs.Puts.{Puts};

    // No cut is put yet, and this one was the last before.
    pub fn after(cut: u64) -> Made
        ensures count { result.count ≡ 0 }
        ensures cut { result.cut ≡ cut }
    {
        Made { count: 0, cut }
    }

    // One more cut, put into the list.
    #[tactic(auto, unfolding(laws::specs::Last::last_or))]
    pub fn put(&mut self, list: &mut [u64], cut: u64)
        requires { self.old.cut < cut }
        ensures { Puts (cut ∷ []) self.old self.new list.old list.new }
    {
        put(list, self.count, cut);
        self.count += 1;
        self.cut = cut;
    }
}
