// What the single pass carries from one block to the next, and what each of its calls hands back.
#![tactic(auto)]

ghost use Rattle.std.specs.Prelude.{◌≡◌};
ghost use Rattle.pass_carry.specs.Outcomes.{refused, wrote};

use terms::{Answer, Refusal, Settings};

mod order;

// What the one-pass cutter carries over a block's edge.
#[repr(C)]
#[derive(Clone, Copy)]
pub struct Carry {
    pub settings: Settings,
    // the bytes taken, and those of them since the last cut
    pub taken: u64,
    pub since: u64,
    // the last 48 bytes, oldest first, zeros before the log's start
    pub window: [u8; 48],
    pub signature: u32,
    // 0 while it is open, 1 once it is closed. It is a number and no bool or enum: the carry comes from C as bytes, which may be any
    pub closed: u32,
}

// What a call answers, and the carry that it hands back, after a refusal too.
#[derive(Clone, Copy)]
pub struct Outcome {
    pub answer: Answer,
    pub carry: Carry,
}

impl Outcome {
    // A refusal hands the carry back as it was.
    pub fn refused(carry: Carry, why: Refusal) -> Self
        ensures { result ≡ refused carry why }
    {
        Outcome {
            answer: Err(why),
            carry,
        }
    }

    // So many entries were written, and this is the carry after them.
    pub fn wrote(carry: Carry, count: u64) -> Self
        ensures { result ≡ wrote carry count }
    {
        Outcome {
            answer: Ok(count),
            carry,
        }
    }
}
