// Merging: log C's board in whatever order it was recorded, boards that no log records, and the refusals. The lent list starts as sevens.
// `ROOM < 2 ^ 60`: an array is lent as a slice only if its bytes, eight for each number, are fewer than 2^63.
ghost use Rattle.std.specs.Prelude.{◌^◌, ◌<◌};

use board::{merge, segment};
use figures::logs::settings;
use figures::show::{Spaced, Told, Wrote};
use figures::{logs, show};
use std::io;
use terms::Settings;

// Merges a board of a log of n bytes into a list with so much room.
fn join<const ROOM: usize>(
    rt: &impl Print,
    what: &str,
    settings: Settings,
    n: u64,
    size: u64,
    width: u64,
    board: &[u64],
) -> io::Result<()>
    requires { ROOM < 2 ^ 60 }
{
    let mut list = [7u64; ROOM];
    let answer = merge(settings, n, size, width, board, &mut list);
    show::answer(rt, what, answer, &list)
}

// Log C's three segments, recorded in an order and merged.
fn recorded(rt: &impl Print, what: &str, settings: Settings, order: [u64; 3]) -> io::Result<()> {
    let c = logs::c();
    let mut board = [0u64; 15];
    for i in order {
        let _ = segment(settings, &c, 150, 5, i, &mut board);
    }
    let mut list = [7u64; 10];
    let answer = merge(settings, 400, 150, 5, &board, &mut list);
    let (told, entries) = (Told(answer.map(Wrote)), Spaced(&list));
    println!(rt; "{what}, recorded{}: {told}{entries}", Spaced(&order))
}

fn orders(rt: &impl Print) -> io::Result<()> {
    let cases = [
        ("C's bays at 48/200", 48, 200),
        ("C's bays at 100/199", 100, 199),
        ("C's bays at 101/202", 101, 202),
        ("C's bays at 48/99", 48, 99),
    ];
    for (what, minimum, maximum) in cases {
        let settings = settings(31, 1, minimum, maximum);
        recorded(rt, what, settings, [0, 1, 2])?;
        recorded(rt, what, settings, [2, 1, 0])?;
        recorded(rt, what, settings, [1, 2, 0])?;
    }
    Ok(())
}

// Two bays of 4 over 300 bytes, at a minimum of 48.
fn two_bays(rt: &impl Print, what: &str, maximum: u64, board: &[u64; 8]) -> io::Result<()> {
    join::<7>(rt, what, settings(31, 1, 48, maximum), 300, 150, 4, board)
}

// Boards that are accepted, though no log records them.
fn walks(rt: &impl Print) -> io::Result<()> {
    let apart = [2, 0, 140, 0, 3, 160, 160, 260];
    two_bays(rt, "a marker that no cut reaches", 200, &apart)?;
    let short = [2, 0, 48, 0, 3, 160, 160, 208];
    two_bays(rt, "steps of the minimum", 200, &short)?;
    let long = [2, 0, 100, 0, 3, 160, 160, 260];
    two_bays(rt, "steps of the maximum", 100, &long)?;
    let settings = settings(31, 1, 48, 200);
    join::<9>(rt, "empty bays", settings, 400, 150, 2, &[1, 0, 1, 0, 1, 0])?;
    join::<9>(rt, "no bays", settings, 0, 150, 2, &[])
}

// Boards whose bays are not done, or wrong in their number or their offsets.
fn bays_refused(rt: &impl Print) -> io::Result<()> {
    let cases = [
        ("bay 0 not done", [0, 0, 140, 0, 3, 160, 160, 260]),
        ("bay 1 not done", [2, 0, 140, 0, 0, 160, 160, 260]),
        (
            "bay 0 not done, bay 1 malformed",
            [0, 0, 140, 0, 4, 160, 160, 260],
        ),
        (
            "bay 0 malformed, bay 1 not done",
            [4, 0, 140, 0, 0, 160, 160, 260],
        ),
        ("too large a number", [2, 0, 140, 0, 4, 0, 160, 260]),
        ("the largest number", [2, 0, 140, 0, u64::MAX, 0, 160, 260]),
        ("offsets that repeat", [2, 0, 140, 0, 3, 0, 160, 160]),
        (
            "an offset at the segment's edge",
            [2, 0, 140, 0, 3, 0, 150, 260],
        ),
        (
            "an offset past the log's end",
            [2, 0, 140, 0, 3, 0, 160, 301],
        ),
    ];
    for (what, board) in cases {
        two_bays(rt, what, 200, &board)?;
    }
    Ok(())
}

// Bays whose marker or steps are wrong.
fn misled(rt: &impl Print) -> io::Result<()> {
    let cases = [
        (
            "a marker that is not listed",
            200,
            [2, 0, 140, 0, 3, 161, 160, 260],
        ),
        (
            "a marker in segment 0",
            200,
            [2, 140, 140, 0, 3, 160, 160, 260],
        ),
        ("a short step from 0", 200, [2, 0, 47, 0, 3, 160, 160, 260]),
        (
            "a short step from the marker",
            200,
            [2, 0, 140, 0, 3, 160, 160, 207],
        ),
        ("a long step from 0", 99, [2, 0, 100, 0, 3, 0, 160, 260]),
        (
            "a long step from the marker",
            99,
            [2, 0, 99, 0, 3, 160, 160, 260],
        ),
    ];
    for (what, maximum, board) in cases {
        two_bays(rt, what, maximum, &board)?;
    }
    Ok(())
}

// A board of six numbers, none of its bays done, and room for 8 cuts.
fn refused(rt: &impl Print) -> io::Result<()> {
    let cases = [
        ("a minimum of 47", 47, 1_099_511_627_777, 63, 2),
        ("a log past 2^40", 48, 1_099_511_627_777, 63, 2),
        ("segments of 63", 48, 0, 63, 2),
        ("segments of 16,777,217", 48, 0, 16_777_217, 2),
        ("bays of 1", 48, 0, 150, 1),
        ("a board one bay short", 48, 400, 133, 2),
        ("room for one less", 48, 400, 150, 2),
    ];
    for (what, minimum, n, size, width) in cases {
        join::<8>(
            rt,
            what,
            settings(31, 1, minimum, 200),
            n,
            size,
            width,
            &[0; 6],
        )?;
    }
    join::<0>(rt, "no room", settings(31, 1, 48, 200), 0, 150, 2, &[])
}

pub fn run(rt: &impl Print) -> io::Result<()> {
    orders(rt)?;
    walks(rt)?;
    bays_refused(rt)?;
    misled(rt)?;
    refused(rt)
}
