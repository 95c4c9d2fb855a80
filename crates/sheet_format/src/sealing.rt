// A sheet written: its body, then its trailer with the check word. Writing asks that K is a byte and not that settings are in range
// (put_sheet's clause), so what it calls asks no more. Settings and label come side by side, as write_sheet takes them.
ghost use Rattle.std.specs.Prelude.{◌≡◌, ◌+◌, ◌*◌, ◌<◌, ◌≤◌, length, take};
ghost use Rattle.laws.specs.Over.{over};
ghost use Rattle.sheet_format.specs.Forms.{cuts_form};
ghost use Rattle.sheet_format.specs.Sheets.{sealed, sheet_of};

use crate::check::check_word;
use crate::trailer::Trailer;
use terms::{Label, Settings};
use words::numbers::{put_number, put_numbers};

// Writes the trailer after the body of count cuts that the bytes begin with. It is inner: the caller sees that K is a byte and that
// there is room.
pub fn seal(settings: Settings, label: Label, count: usize, bytes: &mut [u8])
    requires { (settings.bits < 256) × (8 * count + 32 ≤ length bytes.old) }
    ensures { bytes.new ≡ over (sealed cuts_form settings label count (take (8 * count) bytes.old)) bytes.old }
{
    let (front, rest) = bytes.split_at_mut(8 * count + 28);
    let trailer = Trailer::of_sheet(settings, label, count);
    let (_, fields) = front.split_at_mut(8 * count);
    trailer.put(b"CUTS", fields);
    put_number(u64::from(check_word(front)), &mut rest[..4]);
}

// Writes a sheet from the first of the bytes on. It is inner in the same way.
pub fn put_sheet(settings: Settings, label: Label, list: &[u64], bytes: &mut [u8])
    requires { (settings.bits < 256) × (8 * length list.now + 32 ≤ length bytes.old) }
    ensures { bytes.new ≡ over (sheet_of cuts_form settings label list.now) bytes.old }
{
    put_numbers(8, list, bytes);
    seal(settings, label, list.len(), bytes);
}
