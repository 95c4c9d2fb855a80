// The cuts in a block, put into a lent list one after the other.
ghost use Rattle.std.specs.Prelude.{◌≡◌, true, ◌++◌, ◌+◌, ◌≤◌, ◌<◌, length};
ghost use Rattle.terms.specs.Answers.{longest};
ghost use Rattle.lists.specs.Puts.{Puts};
ghost use Rattle.signature.specs.Signatures.{signature_of};
ghost use Rattle.cutting.specs.Marks.{next_cut};
ghost use Rattle.pass_carry.specs.Carries.{slid_by, in_order, cuts_in};
ghost use Rattle.pass_block.specs.Taking.{is_cut, first_cut, begun};

use cutting::search::Cutter;
use lists::Made;
use pass_carry::Carry;

// Whether a piece that long ends where the search stopped, so many bytes of the block being left: below the block's end it stops only
// where one ends, and at the end the signature there decides.
#[tactic(auto, unfolding(crate::specs::Taking::is_cut))]
fn is_cut(cutter: &Cutter, left: usize, piece: u64, signature: u32) -> bool
    ensures { result ≡ is_cut cutter.now.marks.settings left piece signature }
{
    let settings = cutter.marks.settings;
    let is_mark = cutter.marks.matches(signature);
    left > 0 || piece >= settings.minimum && (is_mark || piece == settings.maximum)
}

// The cut that follows a cut in the block; the block's end follows itself.
fn following(cutter: &Cutter, block: &[u8], cut: usize) -> usize
    requires { cut ≤ length block.now }
    ensures { result ≡ next_cut cutter.now.marks.settings block.now cut }
{
    if cut == block.len() {
        return cut;
    }
    cutter.next_cut(block, cut)
}

// Puts the cuts in a block, from the first offset where the piece in hand can end; the signature is that at the block's end.
pub fn fill(
    cutter: &Cutter,
    carry: Carry,
    first: usize,
    signature: u32,
    block: &[u8],
    list: &mut [u64],
) -> Made
    requires settings { cutter.now.marks.settings ≡ carry.settings }
    requires in_order { in_order carry ≡ true }
    requires block_nonzero { (0 < length block.now) × (carry.taken + length block.now ≤ longest) }
    requires first_value { first ≡ first_cut carry.settings carry.since (carry.window ++ block.now) (length block.now) }
    requires signature_value { signature ≡ signature_of (slid_by carry.window block.now) }
    ensures { Puts (cuts_in carry block.now) (begun carry) result list.old list.new }
{
    let mut made = Made::after(carry.taken - carry.since);
    let mut next = first;
    while is_cut(
        cutter,
        block.len() - next,
        carry.taken + next as u64 - made.cut,
        signature,
    ) {
        made.put(list, carry.taken + next as u64);
        next = following(cutter, block, next);
    }
    made
}
