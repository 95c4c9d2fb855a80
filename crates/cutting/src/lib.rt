// Marks, the next cut, and cutting a whole log that lies in memory.
#![tactic(auto)]

ghost use Rattle.std.specs.Prelude.{◌≡◌, length};
ghost use Rattle.lists.specs.Written.{written_answer, written_list};
ghost use Rattle.cutting.specs.Marks.{cut_list};
ghost use Rattle.cutting.specs.Calls.{cut_log_answer, cut_log_leaves};

pub mod search;

use lists::Made;
use search::Cutter;
use terms::{Answer, Checked, Refusal, Settings};

// Writes the cuts of a log, one after the other, and asks at the end whether the list had room for them. The tables are made here and not in
// cut_log: a function pays for its locals when it is entered, and a refused call should not pay for tables.
fn write_cuts(rule: Checked, log: &[u8], list: &mut [u64]) -> Answer
    ensures answer { result ≡ written_answer (cut_list rule.settings log.now) (length list.old) }
    ensures list { list.new ≡ written_list (cut_list rule.settings log.now) list.old }
{
    let cutter = Cutter::new(rule);
    let mut made = Made::after(0);
    while made.cut < log.len() as u64 {
        let cut = cutter.next_cut(log, made.cut as usize);
        made.put(list, cut as u64);
    }
    if made.count > list.len() as u64 {
        return Err(Refusal::ListFull);
    }
    Ok(made.count)
}

// All cuts of a log, in a lent list.
#[tactic(auto, unfolding(crate::specs::Calls::cut_log_rows, crate::specs::Calls::cut_log_answer, crate::specs::Calls::cut_log_leaves, terms::specs::Rows::verdict))]
pub fn cut_log(settings: Settings, log: &[u8], list: &mut [u64]) -> Answer
    ensures answer { result ≡ cut_log_answer settings log.now (length list.old) }
    ensures list { list.new ≡ cut_log_leaves settings log.now list.old }
{
    let rule = settings.checked()?;
    let bytes = log.len() as u64;
    if bytes > terms::LONGEST {
        return Err(Refusal::LogTooLong);
    }
    let places = list.len() as u64;
    if places < bytes / settings.minimum + 1 {
        return Err(Refusal::RoomTooShort);
    }
    write_cuts(rule, log, list)
}
