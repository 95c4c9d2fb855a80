// The logs of document 01's figures, and the settings that they are cut with.
ghost use Rattle.std.specs.Prelude.{◌≡◌, ◌<◌, length, All};

use terms::Settings;

// Settings by their four numbers. Log A's have K 8; log C's K 31 and target 1, so that its marks are 100, 200 and 300.
pub fn settings(bits: u32, target: u32, minimum: u64, maximum: u64) -> Settings {
    Settings {
        bits,
        target,
        minimum,
        maximum,
    }
}

// Zeros but for ones at some places.
pub fn ones<const N: usize>(places: &[usize]) -> [u8; N]
    requires { All (λ place. place < N) places.now }
    ensures { N ≡ length result }
{
    let mut log = [0u8; N];
    for place in places {
        log[*place] = 1;
    }
    log
}

// Log C.
pub fn c() -> [u8; 400]
    ensures { 400 ≡ length result }
{
    ones(&[99, 199, 299])
}
