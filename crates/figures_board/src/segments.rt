// Segments: what log C's record in their bays, the log's end among it, and the refusals with the board that each leaves. A board starts as sevens.
// `NUMBERS < 2 ^ 60`: an array is lent as a slice only if its bytes, eight for each number, are fewer than 2^63.
ghost use Rattle.std.specs.Prelude.{◌^◌, ◌<◌};

use board::segment;
use figures::logs::{ones, settings};
use figures::{logs, show};
use std::io;
use terms::Settings;

// Records segment i into its bay of a board of so many numbers, and shows the whole board.
fn record<const NUMBERS: usize>(
    rt: &impl Print,
    what: &str,
    settings: Settings,
    log: &[u8],
    size: u64,
    width: u64,
    i: u64,
) -> io::Result<()>
    requires { NUMBERS < 2 ^ 60 }
{
    let mut board = [7u64; NUMBERS];
    let answer = segment(settings, log, size, width, i, &mut board);
    show::answer(rt, what, answer, &board)
}

// Segment 1 of log C at S 150 and 48/200, in a bay of so many numbers lent alone.
fn alone<const NUMBERS: usize>(rt: &impl Print, what: &str) -> io::Result<()>
    requires { NUMBERS < 2 ^ 60 }
{
    let mut bay = [7u64; NUMBERS];
    let answer = board::record(settings(31, 1, 48, 200), &logs::c(), 150, 1, &mut bay);
    show::answer(rt, what, answer, &bay)
}

// Segment 1 of log C at S 150, in the second of three bays.
fn figures(rt: &impl Print) -> io::Result<()> {
    let c = logs::c();
    let cases = [
        ("C's segment 1 at 48/200", 48, 200),
        ("C's segment 1 at 100/200", 100, 200),
        ("C's segment 1 at 100/199", 100, 199),
    ];
    for (what, minimum, maximum) in cases {
        record::<15>(rt, what, settings(31, 1, minimum, maximum), &c, 150, 5, 1)?;
    }
    record::<9>(rt, "in bays of 3", settings(31, 1, 48, 200), &c, 150, 3, 1)?;
    alone::<5>(rt, "in a bay lent alone")?;
    alone::<3>(rt, "in a bay of 3 lent alone")?;
    alone::<1>(rt, "in a bay of 1 lent alone")
}

// The log's end is recorded where it is a cut or a mark of its own. Segments of S 150 in one of two bays.
fn ends(rt: &impl Print) -> io::Result<()> {
    let zeros = [0u8; 99];
    let marked: [u8; 200] = ones(&[99, 199]);
    let cases = [
        ("99 bytes, an end and no more", 48, 100, &zeros[..], 0),
        ("99 bytes, a forced cut", 48, 99, &zeros[..], 0),
        ("100 bytes, a mark", 48, 200, &marked[..100], 0),
        ("100 bytes, a mark too near", 101, 202, &marked[..100], 0),
        ("200 bytes, a mark and no marker", 48, 99, &marked[..], 1),
    ];
    for (what, minimum, maximum, log, i) in cases {
        record::<8>(rt, what, settings(31, 1, minimum, maximum), log, 150, 4, i)?;
    }
    Ok(())
}

// Segments of log C in a board of six numbers.
fn refused(rt: &impl Print) -> io::Result<()> {
    let c = logs::c();
    let cases = [
        ("a minimum of 47", 47, 63, 2, 1),
        ("segments of 63", 48, 63, 2, 1),
        ("segments of 16,777,217", 48, 16_777_217, 2, 0),
        ("bays of 1", 48, 150, 1, 1),
        ("bays of 2^64 - 1", 48, 150, u64::MAX, 1),
        ("no segment 3", 48, 150, 2, 3),
        ("no segment 2^63", 48, 150, 2, 1 << 63),
        ("a board one bay short, not this one", 48, 133, 2, 1),
        ("bays that hold no offset", 48, 150, 2, 1),
    ];
    for (what, minimum, size, width, i) in cases {
        record::<6>(rt, what, settings(31, 1, minimum, 200), &c, size, width, i)?;
    }
    let settings = settings(31, 1, 48, 200);
    record::<8>(rt, "no segment in an empty log", settings, &[], 150, 4, 0)
}

pub fn run(rt: &impl Print) -> io::Result<()> {
    figures(rt)?;
    ends(rt)?;
    refused(rt)
}
