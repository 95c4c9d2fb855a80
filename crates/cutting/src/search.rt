// The next cut after a cut: a window rolled along the log until a mark, or to where the cut is forced.
ghost use Rattle.std.specs.Prelude.{◌≡◌, true, false, suc, ◌-◌, ◌≤◌, ◌<◌, length, IfOk, IfErr};
ghost use Rattle.rule.specs.Rule.{first_mark};
ghost use Rattle.signature.specs.Signatures.{signature_of, window};
ghost use Rattle.terms.specs.Settings.{in_range};
ghost use Rattle.cutting.specs.Marks.{matches, mark, next_cut};

use signature::Tables;
use terms::{Checked, Settings};

// An offset, and the signature of the 48 bytes before it. Whose bytes these are stands in the contracts: a spot that held them would lend them
// anew at each step of the search.
#[derive(Clone, Copy)]
pub struct Spot {
    pub at: usize,
    pub signature: u32,
}

// What tells the marks of a log: the low bits that a signature is held to, and the tables by which it rolls. It asks for at most 31 pattern
// bits and not for settings in range, since it uses no more.
#[derive(Drop)]
pub struct Marks {
    pub settings: Settings,
    pub tables: Tables,
    pub ghost few_bits: { settings.bits ≤ 31 },
}

impl Marks {
    ghost use Rattle.cutting.specs.Search.{Seek};

    // Whether the low bits of a signature are the target.
    pub fn matches(&self, signature: u32) -> bool
        ensures { result ≡ matches self.now.settings signature }
    {
        let mask: u32 = (1 << self.settings.bits) - 1;
        signature & mask == self.settings.target
    }

    // The first mark from one offset to another, both included; or, as an error, the latter where there is none.
    pub fn seek(&self, log: &[u8], first: Spot, last: usize) -> Result<Spot, Spot>
        requires bounds { (48 ≤ first.at) × (first.at ≤ last) × (last ≤ length log.now) }
        requires signature { first.signature ≡ signature_of (window log.now (first.at - 48)) }
        ensures found { IfOk result (λ spot. Seek self.now.settings log.now first.at last spot true) }
        ensures ended { IfErr result (λ spot. Seek self.now.settings log.now first.at last spot false) }
    {
        let mut here = first;
        // The loop counts its offset itself: it tests one offset more than the bytes that it rolls over, which a `for` over the bytes says twice.
        loop {
            if self.matches(here.signature) {
                break Ok(here);
            }
            if here.at == last {
                break Err(here);
            }
            here.signature = self
                .tables
                .roll(here.signature, log[here.at - 48], log[here.at]);
            here.at += 1;
        }
    }

    // The first mark from one offset to another, or the latter where there is none.
    pub fn first_mark(&self, log: &[u8], first: usize, last: usize) -> usize
        requires { (48 ≤ first) × (last ≤ length log.now) }
        ensures { result ≡ first_mark (mark self.now.settings log.now) (suc last - first) first last }
    {
        if last < first {
            return last;
        }
        let here = Spot {
            at: first,
            signature: self.tables.of_window(&log[first - 48..first]),
        };
        match self.seek(log, here, last) {
            Ok(spot) | Err(spot) => spot.at,
        }
    }
}

// What cuts a log: its marks, for settings in range.
#[derive(Drop)]
pub struct Cutter {
    pub marks: Marks,
    pub ghost ranged: { in_range marks.settings ≡ true },
}

impl Cutter {
    pub fn new(rule: Checked) -> Self
        ensures { result.marks.settings ≡ rule.settings }
    {
        let marks = Marks {
            settings: rule.settings,
            tables: Tables::new(),
        };
        Cutter { marks }
    }

    // The cut that follows a cut below the log's end. The bytes below cut + minimum - 48 are not rolled over.
    pub fn next_cut(&self, log: &[u8], cut: usize) -> usize
        requires { cut < length log.now }
        ensures { result ≡ next_cut self.now.marks.settings log.now cut }
    {
        let settings = self.marks.settings;
        let first = cut + settings.minimum as usize;
        let last = (cut + settings.maximum as usize).min(log.len());
        self.marks.first_mark(log, first, last)
    }
}
