// Looking for the meeting: as the new cuts rise, the old cuts that they can still meet are passed one after the other, and none is looked at twice.
ghost use Rattle.std.specs.Prelude.{◌≡◌, true, false, ◌+◌, ◌<◌, ◌^◌, nat_lt, length, IfOk, IfErr};
ghost use Rattle.std.specs.List.{take_while};
ghost use Rattle.amending.specs.Parts.{meets};
ghost use Rattle.amending.specs.Inner.{Ascends, passed_by};

use super::edits::Edit;

// How many entries come before the first that is not below an offset.
pub fn climb(list: &[u64], offset: u64) -> usize
    ensures { result ≡ length (take_while (λ entry. nat_lt entry offset) list.now) }
{
    list.iter().take_while(|entry| **entry < offset).count()
}

// Whether a new cut meets one of the old cuts that are left: how many are passed, with the next of them met or, as an error, not.
pub fn look(left: &[u64], edit: Edit, cut: u64) -> Result<usize, usize>
    requires ascends { Ascends left.now }
    requires added_bound { (edit.at + edit.added < 2 ^ 64) × (cut + edit.removed < 2 ^ 64) }
    ensures met { IfOk result (λ passed. (passed ≡ passed_by edit left.now cut) × (meets edit left.now cut ≡ true)) }
    ensures unmet { IfErr result (λ passed. (passed ≡ passed_by edit left.now cut) × (meets edit left.now cut ≡ false)) }
{
    if cut < edit.at + edit.added {
        return Err(0);
    }
    let offset = cut - edit.added + edit.removed;
    let passed = climb(left, offset);
    if left.get(passed) == Some(&offset) {
        return Ok(passed);
    }
    Err(passed)
}
