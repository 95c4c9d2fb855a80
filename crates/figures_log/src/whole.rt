// Cutting whole logs: the shortest, those about the window's length, minimum = maximum, the limits. The lent list starts as sevens.
use cutting::cut_log;
use figures::logs::{ones, settings};
use figures::show;
use std::io;
use terms::Settings;

fn cut(rt: &impl Print, what: &str, settings: Settings, log: &[u8]) -> io::Result<()> {
    let mut list = [7u64; 6];
    let answer = cut_log(settings, log, &mut list);
    show::answer(rt, what, answer, &list)
}

// Zeros have signature 0, which no target is: every cut is forced.
fn zeros(rt: &impl Print) -> io::Result<()> {
    let log = [0u8; 144];
    let cases = [
        ("no bytes", &log[..0]),
        ("one byte", &log[..1]),
        ("47 bytes", &log[..47]),
        ("48 bytes", &log[..48]),
        ("49 bytes", &log[..49]),
        ("96 bytes", &log[..96]),
        ("97 bytes", &log[..97]),
    ];
    for (what, part) in cases {
        cut(rt, what, settings(8, 1, 48, 96), part)?;
    }
    cut(rt, "minimum = maximum", settings(8, 1, 48, 48), &log)?;
    let largest = settings(8, 1, 48, 16_777_216);
    cut(rt, "the largest maximum", largest, &log)
}

// Byte 47 is 1, so 48 is a mark for target 1: log A as far as it goes.
fn marked(rt: &impl Print) -> io::Result<()> {
    let log: [u8; 60] = ones(&[47]);
    let cases = [
        ("47 bytes, the mark not reached", 1, &log[..47]),
        ("48 bytes, a mark at the end", 1, &log[..48]),
        ("49 bytes, a mark before the end", 1, &log[..49]),
        ("A at 48/96, target 18", 18, &log[..]),
    ];
    for (what, target, part) in cases {
        cut(rt, what, settings(8, target, 48, 96), part)?;
    }
    Ok(())
}

fn refused(rt: &impl Print) -> io::Result<()> {
    let log = [0u8; 288];
    let cases = [
        ("a maximum past the largest", 1, 48, 16_777_217),
        ("a minimum below the window", 1, 47, 96),
        ("a target of 0", 0, 48, 96),
        ("a target past the bits", 256, 48, 96),
        ("room for one less", 1, 48, 96),
    ];
    for (what, target, minimum, maximum) in cases {
        cut(rt, what, settings(8, target, minimum, maximum), &log)?;
    }
    cut(rt, "room for one more", settings(8, 1, 48, 96), &log[..287])
}

pub fn run(rt: &impl Print) -> io::Result<()> {
    zeros(rt)?;
    marked(rt)?;
    refused(rt)
}
