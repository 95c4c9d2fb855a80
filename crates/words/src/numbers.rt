// Big-endian numbers in bytes, each way. That a number has eight bytes at most is asked in each contract: a type for so short a slice would be
// made at each call, for this one fact.
ghost use Rattle.std.specs.Prelude.{◌≡◌, ◌*◌, ◌^◌, ◌≤◌, ◌<◌, length};
ghost use Rattle.laws.specs.Over.{over};
ghost use Rattle.words.specs.Numbers.{big_endian, written, number};

// The number that bytes stand for, the first of them highest. It is inner: the caller lends eight bytes at most. Eight have a way of their own,
// which the compiler makes one load: a sheet's offsets are read twice each.
pub fn number(bytes: &[u8]) -> u64
    requires { length bytes.now ≤ 8 }
    ensures { (result ≡ number bytes.now) × (result < 2 ^ (8 * length bytes.now)) }
{
    if let Ok(whole) = <[u8; 8]>::try_from(bytes) {
        return u64::from_be_bytes(whole);
    }
    let mut high: u64 = 0;
    for byte in bytes {
        high = high * 256 + u64::from(*byte);
    }
    high
}

// Writes a number's low bytes, as many as are lent, the highest of them first. It is inner: the caller lends eight bytes at most.
pub fn put_number(number: u64, bytes: &mut [u8])
    requires { length bytes.old ≤ 8 }
    ensures { bytes.new ≡ big_endian (length bytes.old) number }
{
    let width = bytes.len();
    for (i, byte) in bytes.iter_mut().enumerate() {
        let shift = 8 * (width - 1 - i);
        *byte = ((number >> shift) % 256) as u8;
    }
}

// Writes numbers of one width from the first byte on, one after the other. It is inner: the caller sees that there is room.
pub fn put_numbers(width: usize, list: &[u64], bytes: &mut [u8])
    requires { (width ≤ 8) × (length (written width list.now) ≤ length bytes.old) }
    ensures { bytes.new ≡ over (written width list.now) bytes.old }
{
    for (i, number) in list.iter().enumerate() {
        let at = width * i;
        put_number(*number, &mut bytes[at..at + width]);
    }
}
