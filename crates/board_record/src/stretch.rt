// A stretch of a log: its bytes, and the offset at which they begin.
ghost use Rattle.std.specs.Prelude.{◌+◌, ◌≤◌, ◌^◌, length};

#[derive(Clone, Copy)]
pub struct Stretch<'a> {
    pub bytes: &'a [u8],
    pub base: u64,
    pub ghost in_bounds: { base + length bytes.now ≤ 2 ^ 40 },
}
