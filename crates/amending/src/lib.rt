// Amending a list of cuts after an edit of its log.
#![tactic(auto)]

ghost use Rattle.std.specs.Prelude.{◌≡◌, true, ◌≤◌, length};
ghost use Rattle.terms.specs.Answers.{longest};
ghost use Rattle.lists.specs.WellFormed.{well_formed, length_of};
ghost use Rattle.lists.specs.Written.{written_list};
ghost use Rattle.amending.specs.Parts.{amended_list};
ghost use Rattle.amending.specs.Answers.{new_cuts_of, edit_fits, amend_answer, amend_leaves};
ghost use Rattle.amending.specs.Inner.{parts_answer};

pub mod edits;
mod meeting;
mod parts;
mod recutting;

use cutting::search::Cutter;
use edits::Edit;
use lists::Made;
use terms::{Checked, Refusal, Settings};

// The entries of the three parts of an amended list: kept, cut again, moved.
#[derive(Clone, Copy, Debug, PartialEq, Eq)]
pub struct Counts {
    pub front: u64,
    pub recut: u64,
    pub back: u64,
}

// What amending answers: the entries of the three parts, or why it is refused.
pub type Amendment = Result<Counts, Refusal>;

// Writes the three parts, one after the other, and asks at the end whether the list had room for them.
fn write_parts(rule: Checked, old: &[u64], edit: Edit, log: &[u8], list: &mut [u64]) -> Amendment
    requires old_value { well_formed rule.settings.minimum rule.settings.maximum old.now ≡ true }
    requires log_value { (edit_fits (length_of old.now) edit (length log.now) ≡ true) × (length log.now ≤ longest) }
    ensures answer { result ≡ parts_answer (new_cuts_of rule.settings log.now) old.now edit (length list.old) }
    ensures list { list.new ≡ written_list (amended_list (new_cuts_of rule.settings log.now) old.now edit) list.old }
{
    let kept = parts::front_count(old, edit.at);
    let (front, past) = old.split_at(kept);
    parts::put_moved(front, 0, 0, list, 0);
    let mut made = Made {
        count: kept as u64,
        cut: parts::last_of(front),
    };
    let passed = recutting::recut(&Cutter::new(rule), past, edit, log, list, &mut made);
    let back = &past[passed..];
    parts::put_moved(back, edit.removed, edit.added, list, made.count);
    let left = back.len() as u64;
    if made.count + left > list.len() as u64 {
        return Err(Refusal::ListFull);
    }
    Ok(Counts {
        front: kept as u64,
        recut: made.count - kept as u64,
        back: left,
    })
}

// The list of the new log, from the old log's list.
pub fn amend(settings: Settings, old: &[u64], edit: Edit, log: &[u8], list: &mut [u64]) -> Amendment
    ensures answer { result ≡ amend_answer settings old.now edit log.now (length list.old) }
    ensures list { list.new ≡ amend_leaves settings old.now edit log.now list.old }
{
    let rule = settings.checked()?;
    if !lists::well_formed(settings, old) {
        return Err(Refusal::ListNotWellFormed);
    }
    let bytes = log.len() as u64;
    if !edit.fits(parts::last_of(old), bytes) {
        return Err(Refusal::EditOutOfRange);
    }
    if bytes > terms::LONGEST {
        return Err(Refusal::LogTooLong);
    }
    let places = list.len() as u64;
    if places < bytes / settings.minimum + 1 {
        return Err(Refusal::RoomTooShort);
    }
    write_parts(rule, old, edit, log, list)
}
