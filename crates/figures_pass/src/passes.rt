// The single pass: logs A and C cut by a fresh carry, blocks and closing. Whatever the blocks' size, the list is the whole log's. It starts as sevens.
ghost use Rattle.std.specs.Prelude.{◌<◌};

use figures::logs;
use figures::logs::{ones, settings};
use figures::show::Spaced;
use pass::{block, close, fresh};
use pass_carry::{Carry, Outcome};
use std::io;
use terms::Settings;

// The log so far: the carry, and the entries written. The list stays beside it, since it is shown whole once the log is closed.
#[derive(Drop)]
struct Pass {
    carry: Carry,
    written: u64,
}

impl Pass {
    // A call with the carry, its cuts after those that are written.
    fn next<F: FnOnce(Carry, &mut [u64]) -> Outcome>(&mut self, list: &mut [u64], call: F)
        requires { F.IsAlwaysCallable call }
    {
        if let Some(rest) = list.get_mut(self.written as usize..) {
            let outcome = call(self.carry, rest);
            self.carry = outcome.carry;
            if let Ok(count) = outcome.answer {
                self.written = self.written.wrapping_add(count);
            }
        }
    }
}

// A log in blocks of a size.
fn cut(rt: &impl Print, what: &str, settings: Settings, log: &[u8], size: usize) -> io::Result<()>
    requires { 0 < size }
{
    let mut list = [7u64; 10];
    let mut pass = Pass {
        carry: fresh(settings).carry,
        written: 0,
    };
    for part in log.chunks(size) {
        pass.next(&mut list, |carry, rest| block(carry, part, rest));
    }
    pass.next(&mut list, close);
    println!(rt;
        "{what} in blocks of {size}: wrote {}{}",
        pass.written,
        Spaced(&list)
    )
}

// Short blocks, those about the window's length, and the whole log.
fn sizes(rt: &impl Print, what: &str, settings: Settings, log: &[u8]) -> io::Result<()> {
    cut(rt, what, settings, log, 7)?;
    cut(rt, what, settings, log, 47)?;
    cut(rt, what, settings, log, 48)?;
    cut(rt, what, settings, log, 49)?;
    cut(rt, what, settings, log, 400)
}

fn cut_a(rt: &impl Print) -> io::Result<()> {
    let a: [u8; 60] = ones(&[47]);
    let cases = [
        ("A at 48/96, target 1", settings(8, 1, 48, 96)),
        ("A at 48/96, target 18", settings(8, 18, 48, 96)),
        ("A at 53/96, target 18", settings(8, 18, 53, 96)),
        ("A at 48/51, target 18", settings(8, 18, 48, 51)),
    ];
    for (what, settings) in cases {
        sizes(rt, what, settings, &a)?;
    }
    let near = settings(8, 18, 48, 51);
    cut(rt, "A at 48/51, target 18", near, &a, 1)
}

fn cut_c(rt: &impl Print) -> io::Result<()> {
    let c = logs::c();
    let cases = [
        ("C at 48/200", settings(31, 1, 48, 200)),
        ("C at 101/202", settings(31, 1, 101, 202)),
        ("C at 48/99", settings(31, 1, 48, 99)),
    ];
    for (what, settings) in cases {
        sizes(rt, what, settings, &c)?;
    }
    cut(rt, "C at 48/99", settings(31, 1, 48, 99), &c, 1)
}

pub fn run(rt: &impl Print) -> io::Result<()> {
    cut_a(rt)?;
    cut_c(rt)?;
    let settings = settings(31, 1, 48, 200);
    sizes(rt, "no bytes", settings, &[])?;
    sizes(rt, "one byte", settings, &[0])
}
