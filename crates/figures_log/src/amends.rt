// Amending: the figures of document 01 over log C at 48/200, the corners of front, meeting and back, and the refusals.
// `ROOM < 2 ^ 60`: an array is lent as a slice only if its bytes, eight for each number, are fewer than 2^63.
ghost use Rattle.std.specs.Prelude.{◌^◌, ◌<◌};

use amending::edits::Edit;
use amending::{Counts, amend};
use figures::logs::{ones, settings};
use figures::show::{Spaced, Told};
use std::{fmt, io};

// The entries of the three parts.
#[derive(Clone, Copy)]
struct Shown(Counts);

impl fmt::Display for Shown {
    fn fmt<W: fmt::Write>(&self, f: &mut fmt::Formatter<W>) -> fmt::Result {
        let parts = self.0;
        write!(
            f,
            "counts {} {} {} list",
            parts.front, parts.recut, parts.back
        )
    }
}

fn edit(at: u64, removed: u64, added: u64) -> Edit {
    Edit { at, removed, added }
}

// Amends the old list of log C, for an edit that led to a new log, and shows the list lent, which starts as sevens.
fn show<const ROOM: usize>(
    rt: &impl Print,
    what: &str,
    old: &[u64],
    edit: Edit,
    log: &[u8],
) -> io::Result<()>
    requires { ROOM < 2 ^ 60 }
{
    let mut list = [7u64; ROOM];
    let amendment = amend(settings(31, 1, 48, 200), old, edit, log, &mut list);
    println!(rt; "{what}: {}{}", Told(amendment.map(Shown)), Spaced(&list))
}

fn figures(rt: &impl Print) -> io::Result<()> {
    let put_in: [u8; 401] = ones(&[99, 150, 200, 300]);
    let twice: [u8; 500] = ones(&[99, 199, 299, 399]);
    let c: [u8; 410] = ones(&[99, 199, 299]);
    let cases = [
        ("one byte 1 put in at 150", edit(150, 0, 1), &put_in[..]),
        ("ten zeros appended", edit(400, 0, 10), &c[..]),
        (
            "a copy of the first piece put in at 100",
            edit(100, 0, 100),
            &twice[..],
        ),
        ("nothing replaced at 150", edit(150, 0, 0), &c[..400]),
        ("nothing replaced at the end", edit(400, 0, 0), &c[..400]),
        ("the last piece taken away", edit(300, 100, 0), &c[..300]),
        ("everything taken away", edit(0, 400, 0), &c[..0]),
    ];
    for (what, edit, log) in cases {
        show::<11>(rt, what, &[100, 200, 300, 400], edit, log)?;
    }
    Ok(())
}

fn edits_refused(rt: &impl Print) -> io::Result<()> {
    let c: [u8; 400] = ones(&[99, 199, 299]);
    let wrapping = edit(0, 0, 18_446_744_073_709_551_216);
    let cases = [
        ("s past the old length", edit(401, 0, 0), &c[..]),
        ("d past what follows s", edit(350, 51, 0), &c[..349]),
        ("another length", edit(350, 0, 1), &c[..]),
        ("a length that would wrap", wrapping, &c[..0]),
    ];
    for (what, edit, log) in cases {
        show::<11>(rt, what, &[100, 200, 300, 400], edit, log)?;
    }
    Ok(())
}

fn rooms(rt: &impl Print) -> io::Result<()> {
    let c = [100u64, 200, 300, 400];
    let log: [u8; 480] = ones(&[99, 199, 299]);
    let cases = [
        ("room for one less", 80, &log[..]),
        ("room for one more", 79, &log[..479]),
    ];
    for (what, added, part) in cases {
        show::<10>(rt, what, &c, edit(400, 0, added), part)?;
    }
    Ok(())
}

// An old end that is a mark is no front cut either; a list that is not the log's is taken as it stands.
fn other_lists(rt: &impl Print) -> io::Result<()> {
    let log: [u8; 400] = ones(&[99, 199, 299]);
    let cases = [
        (
            "a short step before the last",
            &[10, 60][..],
            edit(0, 0, 0),
            &log[..60],
        ),
        ("from an empty log", &[][..], edit(0, 0, 101), &log[..101]),
        (
            "ten zeros appended to a mark",
            &[100][..],
            edit(100, 0, 10),
            &log[..110],
        ),
    ];
    for (what, old, edit, log) in cases {
        show::<3>(rt, what, old, edit, log)?;
    }
    let untrue = [60u64, 130, 250, 400];
    show::<9>(
        rt,
        "from a list that is not the log's",
        &untrue,
        edit(70, 0, 0),
        &log,
    )
}

pub fn run(rt: &impl Print) -> io::Result<()> {
    figures(rt)?;
    edits_refused(rt)?;
    rooms(rt)?;
    other_lists(rt)
}
