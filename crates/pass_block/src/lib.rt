// Taking a block that no row refuses: the cuts in it, and the carry after it.
#![tactic(auto)]

ghost use Rattle.std.specs.Prelude.{◌≡◌, true, ◌+◌, ◌≤◌, ◌<◌, length};
ghost use Rattle.terms.specs.Settings.{in_range};
ghost use Rattle.terms.specs.Answers.{longest};
ghost use Rattle.lists.specs.Written.{written_list};
ghost use Rattle.pass_carry.specs.Carries.{in_order, cuts_in};
ghost use Rattle.pass_block.specs.Taking.{taken_outcome};

use cutting::search::Cutter;
use pass_carry::{Carry, Outcome};
use terms::{Checked, Refusal};

mod filling;
mod search;
mod window;

// Takes a block that is not empty.
pub fn take_block(carry: Carry, block: &[u8], list: &mut [u64]) -> Outcome
    requires settings_value { (in_range carry.settings ≡ true) × (in_order carry ≡ true) }
    requires block_nonzero { (0 < length block.now) × (carry.taken + length block.now ≤ longest) }
    ensures answer { result ≡ taken_outcome carry block.now (length list.old) }
    ensures list { list.new ≡ written_list (cuts_in carry block.now) list.old }
{
    let cutter = Cutter::new(Checked {
        settings: carry.settings,
    });
    let head = window::joined(&carry.window, block);
    let first = search::first_cut(&cutter, carry.since, &head, block);
    let window = window::slide(&head, block);
    let signature = cutter.marks.tables.of_window(&window);
    let made = filling::fill(&cutter, carry, first, signature, block, list);
    if made.count > list.len() as u64 {
        return Outcome::refused(carry, Refusal::ListFull);
    }
    let taken = carry.taken + block.len() as u64;
    let after = Carry {
        taken,
        since: taken - made.cut,
        window,
        signature,
        ..carry
    };
    Outcome::wrote(after, made.count)
}
