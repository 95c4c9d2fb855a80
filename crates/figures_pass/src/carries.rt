// Carries that are refused, and those at the edge that are not: each call answers, shows the lent list, which starts as sevens, and the carry handed
// back.
use figures::logs::settings;
use figures::show::{Hex, answer};
use pass::{block, close, fresh};
use pass_carry::{Carry, Outcome};
use std::{fmt, io};
use terms::Settings;

// A carry at 48/200 whose last 48 bytes are zeros.
fn zeros(taken: u64, since: u64) -> Carry {
    Carry {
        settings: settings(31, 1, 48, 200),
        taken,
        since,
        window: [0; 48],
        signature: 0,
        closed: 0,
    }
}

// The numbers of a carry in the order of its parts, then its window.
#[derive(Clone, Copy)]
struct Shown<'a>(&'a Carry);

impl fmt::Display for Shown<'_> {
    fn fmt<W: fmt::Write>(&self, f: &mut fmt::Formatter<W>) -> fmt::Result {
        let carry = self.0;
        let settings = carry.settings;
        let (bits, target) = (settings.bits, settings.target);
        let (minimum, maximum) = (settings.minimum, settings.maximum);
        write!(f, "carry {bits} {target} {minimum} {maximum}")?;
        write!(f, " {} {} {}", carry.taken, carry.since, carry.signature)?;
        let state = if carry.closed == 1 { "closed" } else { "open" };
        write!(f, " {state} {}", Hex(&carry.window))
    }
}

fn show(rt: &impl Print, what: &str, outcome: Outcome, list: &[u64]) -> io::Result<()> {
    let carry = outcome.carry;
    answer(rt, what, outcome.answer, list)?;
    println!(rt; "  {}", Shown(&carry))
}

fn take(
    rt: &impl Print,
    what: &str,
    carry: Carry,
    bytes: &[u8],
    list: &mut [u64],
) -> io::Result<()> {
    let outcome = block(carry, bytes, list);
    show(rt, what, outcome, list)
}

fn shut(rt: &impl Print, what: &str, carry: Carry, list: &mut [u64]) -> io::Result<()> {
    let outcome = close(carry, list);
    show(rt, what, outcome, list)
}

fn start(rt: &impl Print, what: &str, settings: Settings) -> io::Result<()> {
    show(rt, what, fresh(settings), &[])
}

// What a refused fresh carry is: every part 0.
fn nothing() -> Carry {
    fresh(settings(31, 1, 47, 200)).carry
}

// A block of one byte, and room for one cut.
fn take_byte(rt: &impl Print, what: &str, carry: Carry) -> io::Result<()> {
    let mut list = [7u64; 1];
    take(rt, what, carry, &[0], &mut list)
}

fn not_in_order(rt: &impl Print) -> io::Result<()> {
    take_byte(rt, "more since the last cut than taken", zeros(10, 11))?;
    take_byte(rt, "the maximum since the last cut", zeros(200, 200))?;
    take_byte(rt, "more than 2^40 taken", zeros(1_099_511_627_777, 5))?;
    let mut carry = zeros(10, 5);
    carry.signature = 1;
    take_byte(rt, "another signature", carry)?;
    carry.closed = 1;
    take_byte(rt, "another signature and closed", carry)
}

// Place 37 is one of ten bytes' last 48 that lie before their start; with a 1 there the signature is x^80, reduced.
fn before_the_start(rt: &impl Print) -> io::Result<()> {
    let mut carry = zeros(10, 5);
    carry.window[37] = 1;
    carry.signature = 17_039_360;
    take_byte(rt, "a byte before the log's start", carry)?;
    carry.taken = 11;
    take_byte(rt, "the same as the log's first byte", carry)
}

fn other_rows(rt: &impl Print) -> io::Result<()> {
    take_byte(rt, "a block on no carry", nothing())?;
    let mut carry = zeros(10, 5);
    carry.closed = 1;
    take_byte(rt, "a block on a closed carry", carry)?;
    let full = zeros(1_099_511_627_776, 5);
    take_byte(rt, "one byte past 2^40", full)?;
    let mut list = [7u64; 5];
    take(rt, "no byte past 2^40", full, &[], &mut list)?;
    let carry = zeros(10, 5);
    take(
        rt,
        "a carry that no log leads to",
        carry,
        &[0; 195],
        &mut list,
    )
}

fn rooms(rt: &impl Print) -> io::Result<()> {
    let mut list = [7u64; 1];
    let carry = zeros(0, 0);
    take(rt, "no bytes and no room", carry, &[], &mut [])?;
    take(rt, "48 bytes, room for one cut", carry, &[0; 48], &mut list)?;
    take(rt, "47 bytes, room for one cut", carry, &[0; 47], &mut list)?;
    shut(rt, "closing with no room", carry, &mut [])?;
    shut(rt, "closing with nothing to write", carry, &mut list)?;
    let carry = zeros(400, 100);
    shut(rt, "closing with the end to write", carry, &mut list)
}

fn closing(rt: &impl Print) -> io::Result<()> {
    let mut list = [7u64; 1];
    shut(rt, "closing no carry", nothing(), &mut list)?;
    shut(rt, "closing one not in order", zeros(10, 11), &mut list)?;
    let mut carry = zeros(400, 100);
    carry.closed = 1;
    shut(rt, "closing a closed one", carry, &mut list)
}

pub fn run(rt: &impl Print) -> io::Result<()> {
    start(rt, "fresh", settings(31, 1, 48, 200))?;
    start(rt, "fresh with a minimum of 47", settings(31, 1, 47, 200))?;
    not_in_order(rt)?;
    before_the_start(rt)?;
    other_rows(rt)?;
    rooms(rt)?;
    closing(rt)
}
