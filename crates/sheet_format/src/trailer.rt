// The trailer of a sheet, each way.
ghost use Rattle.std.specs.Prelude.{◌≡◌, ◌*◌, ◌^◌, ◌<◌, ◌≤◌, length};
ghost use Rattle.laws.specs.Over.{over};
ghost use Rattle.sheet_format.specs.Trailer.{fields, trailer_in, trailer_for, is_label, trailer_right};
ghost use Rattle.sheet_format.specs.Clean.{has_trailer, trailer_of};

use terms::{Label, Settings};
use words::numbers::{number, put_numbers};
use words::runs::same_bytes;

// The fields of a trailer, as they stand in its bytes, which may be any: so the label is a byte here, and only a sheet that was read has a
// `Label`. Bytes 6 and 7 are two fields, as in the definitions (`LaidOut`).
#[derive(Clone, Copy)]
pub struct Trailer {
    pub label: u8,
    pub settings: Settings,
    pub six: u8,
    pub seven: u8,
    pub count: u64,
    pub distance: u64,
}

// Whether there is a trailer at the end of bytes, and it begins with a mark.
pub fn has_trailer(mark: &[u8], bytes: &[u8]) -> bool
    ensures { result ≡ has_trailer mark.now bytes.now }
{
    let Some((_, last)) = bytes.split_last_chunk::<32>() else {
        return false;
    };
    same_bytes(mark, &last[..4])
}

// The trailer at the end of bytes. It is inner: the caller sees that there are 32 bytes.
pub fn trailer_of(bytes: &[u8]) -> Trailer
    requires { 32 ≤ length bytes.now }
    ensures { result ≡ trailer_of bytes.now }
{
    let (_, last) = bytes.split_last_chunk::<32>().unwrap();
    Trailer::read(last)
}

// Whether a byte stands for a label. Which one is asked of the caller of reading later, so no `Label` is made here.
#[tactic(auto, unfolding(crate::specs::Trailer::is_label))]
fn is_label(byte: u8) -> bool
    ensures { result ≡ is_label byte }
{
    byte == u8::from(Label::Practice) || byte == u8::from(Label::Live)
}

impl Trailer {
    // The trailer of a sheet of count cuts. It is inner: the caller has a list of so many.
    #[tactic(auto, unfolding(crate::specs::Trailer::trailer_for))]
    pub fn of_sheet(settings: Settings, label: Label, count: usize) -> Trailer
        requires { 8 * count < 2 ^ 64 }
        ensures { result ≡ trailer_for settings label count }
    {
        let count = count as u64;
        Trailer {
            label: u8::from(label),
            settings,
            six: 0,
            seven: 0,
            count,
            distance: 8 * count,
        }
    }

    // The fields that stand in a trailer's bytes.
    pub fn read(bytes: &[u8; 32]) -> Trailer
        ensures { result ≡ trailer_in bytes.now }
    {
        let target = number(&bytes[8..12]) as u32;
        let minimum = number(&bytes[12..16]);
        let maximum = number(&bytes[16..20]);
        Trailer {
            label: bytes[4],
            settings: Settings {
                bits: u32::from(bytes[5]),
                target,
                minimum,
                maximum,
            },
            six: bytes[6],
            seven: bytes[7],
            count: number(&bytes[20..24]),
            distance: number(&bytes[24..28]),
        }
    }

    // Whether the fields are right where so many bytes stand before the trailer.
    #[tactic(auto, unfolding(crate::specs::Trailer::trailer_right))]
    pub fn is_right(self, before: u64) -> bool
        ensures { result ≡ trailer_right before self }
    {
        is_label(self.label)
            && self.settings.in_range()
            && self.six == 0
            && self.seven == 0
            && self.count <= 1_048_576
            && self.distance == 8 * self.count
            && self.distance <= before
    }

    // Writes a trailer's bytes up to its check word, from the first of the bytes on. It is inner: the caller sees that the mark is one of a
    // form, that K is a byte and that there is room.
    pub fn put(self, mark: &[u8], bytes: &mut [u8])
        requires { (length mark.now ≡ 4) × (self.settings.bits < 256) × (28 ≤ length bytes.old) }
        ensures { bytes.new ≡ over (fields mark.now self) bytes.old }
    {
        let settings = self.settings;
        let signs = [self.label, settings.bits as u8, self.six, self.seven];
        let numbers = [
            u64::from(settings.target),
            settings.minimum,
            settings.maximum,
            self.count,
            self.distance,
        ];
        let (first, rest) = bytes.split_at_mut(4);
        let (second, third) = rest.split_at_mut(4);
        first.copy_from_slice(mark);
        second.copy_from_slice(&signs);
        put_numbers(4, &numbers, third);
    }
}
