// The single pass: a fresh carry, a block, and closing.
ghost use Rattle.std.specs.Prelude.{◌≡◌, length};
ghost use Rattle.pass.specs.Calls.{fresh_outcome, block_outcome, block_leaves, close_outcome, close_leaves};
ghost use Rattle.thrunglow.specs.Pass.{passed_of};

use super::answers;
use pass_carry::{Carry, Outcome};
use terms::Settings;

// A number, the entries written, and the carry handed back, as C takes them.
#[repr(C)]
#[derive(Clone, Copy)]
pub struct Passed {
    pub number: u32,
    pub count: u64,
    pub carry: Carry,
}

impl From<Outcome> for Passed {
    ghost from_gives = { λ outcome passed. passed ≡ passed_of outcome };

    fn from(outcome: Outcome) -> Passed {
        let answers::Outcome { number, count } = answers::Outcome::from(outcome.answer);
        Passed {
            number,
            count,
            carry: outcome.carry,
        }
    }
}

pub fn thrunglow_fresh(settings: Settings) -> Passed
    ensures answer { result ≡ passed_of (fresh_outcome settings) }
{
    Passed::from(pass::fresh(settings))
}

pub fn thrunglow_block(carry: Carry, block: &[u8], list: &mut [u64]) -> Passed
    ensures answer { result ≡ passed_of (block_outcome carry block.now (length list.old)) }
    ensures list { list.new ≡ block_leaves carry block.now list.old }
{
    Passed::from(pass::block(carry, block, list))
}

pub fn thrunglow_close(carry: Carry, list: &mut [u64]) -> Passed
    ensures answer { result ≡ passed_of (close_outcome carry (length list.old)) }
    ensures list { list.new ≡ close_leaves carry list.old }
{
    Passed::from(pass::close(carry, list))
}
