// The recut: cutting from the last front cut on, up to the meeting.
ghost use Rattle.std.specs.Prelude.{◌≡◌, ◌+◌, ◌<◌, ◌^◌, length};
ghost use Rattle.amending.specs.Answers.{new_cuts_of};
ghost use Rattle.amending.specs.Inner.{Ascends, Recutted};

use super::edits::Edit;
use super::meeting::look;
use cutting::search::Cutter;
use lists::Made;

// Cuts the new log from the last cut made on until a new cut meets an old one or the log ends, and answers how many of the old cuts past the
// front come before the meeting: all where there is none.
pub fn recut(
    cutter: &Cutter,
    past: &[u64],
    edit: Edit,
    log: &[u8],
    list: &mut [u64],
    made: &mut Made,
) -> usize
    requires ascends { Ascends past.now }
    requires added_bound { (edit.at + edit.added < 2 ^ 64) × (length log.now + edit.removed < 2 ^ 64) }
    ensures { Recutted edit past.now (new_cuts_of cutter.now.marks.settings log.now made.old.cut) made.old made.new list.old list.new result }
{
    let mut passed = 0;
    while made.cut < log.len() as u64 {
        let cut = cutter.next_cut(log, made.cut as usize) as u64;
        match look(&past[passed..], edit, cut) {
            Ok(more) => return passed + more,
            Err(more) => passed += more,
        }
        made.put(list, cut);
    }
    past.len()
}
