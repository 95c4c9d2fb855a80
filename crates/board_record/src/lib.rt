// Recording a segment: its stretch of the log is rolled through from its lead-in on.
#![tactic(auto)]

ghost use Rattle.std.specs.Prelude.{◌≡◌, length};
ghost use Rattle.board_record.specs.Stretches.{Records};
ghost use Rattle.board_record.specs.Records.{segment_of};

use board_bays::segments::Segment;
use cutting::search::Cutter;
use lists::Made;
use stretch::Stretch;
use terms::Checked;

mod cuts;
mod marks;
mod stretch;

// How many offsets a record lists, and its marker. No marker is 0 here too: it stands so in a bay, where both go next.
#[derive(Clone, Copy)]
pub struct Recorded {
    pub count: u64,
    pub marker: u64,
}

// The record of a segment of a log: segment 0 runs accelerated from 0; any other is a stretch that starts 47 bytes before it.
pub fn record_segment(rule: Checked, log: &[u8], segment: Segment, list: &mut [u64]) -> Recorded
    requires { segment.n ≡ length log.now }
    ensures { Records (segment_of rule.settings log.now segment.size segment.i) 0 result list.old list.new }
{
    let cutter = Cutter::new(rule);
    let start = segment.start();
    let last = segment.end() as usize;
    if segment.i == 0 {
        let stretch = Stretch {
            bytes: &log[0..last],
            base: 0,
        };
        let made = cuts::record_cuts(&cutter, &stretch, Made::after(0), list);
        return Recorded {
            count: made.count,
            marker: 0,
        };
    }
    let base = start - 47;
    let stretch = Stretch {
        bytes: &log[base as usize..last],
        base,
    };
    marks::record_marks(&cutter, &stretch, list)
}
