// The sheet and its body where they stand in bytes; the offsets of a body, judged there and written to a list.
ghost use Rattle.std.specs.Prelude.{◌≡◌, ◌/◌, ◌≤◌, length};
ghost use Rattle.laws.specs.Over.{over};
ghost use Rattle.lists.specs.WellFormed.{well_formed};
ghost use Rattle.words.specs.Numbers.{numbers_of};
ghost use Rattle.sheet_format.specs.Clean.{sheet_in, body_in};
ghost use Rattle.sheet_format.specs.Inner.{Placed};

use lists::step_fits;
use terms::{LONGEST, Settings};
use words::numbers::number;

// The sheet at the end of bytes. It is inner: the caller gives its trailer's distance and sees that the body fits. It takes a distance and no
// slice, since where the slice begins is what it tells.
pub fn sheet_in(distance: u64, bytes: &[u8]) -> &[u8]
    requires { Placed distance bytes.now }
    ensures { result.now ≡ sheet_in bytes.now }
{
    let start = bytes.len() - 32 - distance as usize;
    &bytes[start..]
}

// The body of that sheet. It is inner in the same way.
pub fn body_in(distance: u64, bytes: &[u8]) -> &[u8]
    requires { Placed distance bytes.now }
    ensures { result.now ≡ body_in bytes.now }
{
    let sheet = sheet_in(distance, bytes);
    &sheet[..distance as usize]
}

// Whether the offsets of a body are a well-formed list. It stands beside lists::well_formed, which walks a slice, and shares its step: one
// function over any iterator would be no plainer, since it would ask that the iterator ends and that its count fits, speak of every run
// of it in its clause, and owe at each call what the chain yields.
pub fn is_well_formed(settings: Settings, body: &[u8]) -> bool
    ensures { result ≡ well_formed settings.minimum settings.maximum (numbers_of 8 body.now) }
{
    let count = body.len() / 8;
    let mut before = 0;
    for (i, place) in body.chunks_exact(8).enumerate() {
        let entry = number(place);
        if !step_fits(settings, i + 1 == count, before, entry) {
            return false;
        }
        before = entry;
    }
    before <= LONGEST
}

// Writes the offsets of a body to a list. It is inner: the caller sees that there is room. It writes by places, since a proof knows
// nothing of what was written through list.iter_mut().zip(..).
pub fn take_offsets(body: &[u8], list: &mut [u64])
    requires { length body.now / 8 ≤ length list.old }
    ensures { list.new ≡ over (numbers_of 8 body.now) list.old }
{
    for (i, place) in body.chunks_exact(8).enumerate() {
        list[i] = number(place);
    }
}
