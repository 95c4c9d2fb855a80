// The cut sheet of log C's 48/200 list as practice, byte by byte, and each refusal by a sheet that is damaged its own way.
ghost use Rattle.std.specs.Prelude.{◌≤◌, length, IfSome};

use figures::logs::settings;
use figures::show::{Hex, Spaced, Told, Wrote};
use sheet::{Sheet, read_sheet, write_sheet};
use std::{fmt, io};
use terms::{Label, Settings};

// Log C's list.
const LIST: [u64; 4] = [100, 200, 300, 400];

// The sheet, after five bytes that are not its own.
fn sheet() -> [u8; 69] {
    let mut bytes = [9u8; 69];
    let _ = write_sheet(
        settings(31, 1, 48, 200),
        Label::Practice,
        &LIST,
        &mut bytes[5..],
    );
    bytes
}

// What reading came to: the label's byte, the settings and the number of cuts.
#[derive(Clone, Copy)]
struct Shown(Sheet);

impl fmt::Display for Shown {
    fn fmt<W: fmt::Write>(&self, f: &mut fmt::Formatter<W>) -> fmt::Result {
        let sheet = self.0;
        let settings = sheet.settings;
        let (bits, target) = (settings.bits, settings.target);
        let (minimum, maximum) = (settings.minimum, settings.maximum);
        write!(f, "read {} {bits} {target}", u8::from(sheet.label))?;
        write!(f, " {minimum} {maximum} {} list", sheet.count)
    }
}

fn read(rt: &impl Print, what: &str, bytes: &[u8], asked: Label) -> io::Result<()> {
    let mut list = [7u64; 5];
    let sheet = read_sheet(bytes, asked, &mut list);
    println!(rt; "{what}: {}{}", Told(sheet.map(Shown)), Spaced(&list))
}

// Reads the sheet with some of its bytes changed, each counted from its first.
fn damaged(rt: &impl Print, what: &str, changes: &[(usize, u8)]) -> io::Result<()> {
    let mut bytes = sheet();
    for (place, byte) in changes {
        if let Some(there) = bytes[5..].get_mut(*place) {
            *there = *byte;
        }
    }
    read(rt, what, &bytes, Label::Practice)
}

// Writes a list into so much room of 69 bytes, and shows the answer and, if asked to, so many of them.
fn write(
    rt: &impl Print,
    what: &str,
    settings: Settings,
    label: Label,
    list: &[u64],
    room: usize,
    shown: Option<usize>,
) -> io::Result<()>
    requires { (room ≤ 69) × (IfSome shown (λ count. count ≤ 69)) }
{
    let mut bytes = [9u8; 69];
    let answer = write_sheet(settings, label, list, &mut bytes[..room]);
    println!(rt; "{what}: {}", Told(answer.map(Wrote)))?;
    match shown {
        Some(count) => println!(rt; "{}", Hex(&bytes[..count])),
        None => Ok(()),
    }
}

fn figures(rt: &impl Print) -> io::Result<()> {
    let settings = settings(31, 1, 48, 200);
    let practice = Label::Practice;
    write(
        rt,
        "C's list as practice",
        settings,
        practice,
        &LIST,
        69,
        Some(66),
    )?;
    write(
        rt,
        "an empty list as live",
        settings,
        Label::Live,
        &[],
        69,
        Some(32),
    )?;
    read(rt, "after other bytes", &sheet(), practice)
}

fn refused_reading(rt: &impl Print) -> io::Result<()> {
    let bytes = sheet();
    read(rt, "31 bytes", &bytes[38..], Label::Practice)?;
    read(rt, "a body cut off", &bytes[6..], Label::Practice)?;
    read(rt, "asked for as live", &bytes, Label::Live)?;
    damaged(rt, "no CUTS", &[(35, 0x54)])?;
    damaged(rt, "a label that is none", &[(36, 0x51)])?;
    damaged(rt, "no pattern bits", &[(37, 0)])?;
    damaged(rt, "a byte that is to be zero", &[(38, 1)])?;
    damaged(rt, "a count of five", &[(55, 5)])?;
    damaged(rt, "a distance of 40", &[(59, 40)])?;
    damaged(rt, "an offset of 101", &[(7, 101)])?;
    damaged(rt, "a check word one off", &[(63, 0xA9)])?;
    // 200 becomes 100, and the check word is one that goes with it
    let falling = [(15, 100), (62, 0xA7), (63, 0x0C)];
    damaged(rt, "a list that does not rise", &falling)
}

fn refused_writing(rt: &impl Print) -> io::Result<()> {
    let live = Label::Live;
    let low = settings(31, 1, 47, 200);
    write(rt, "settings out of range", low, live, &LIST, 69, None)?;
    let settings = settings(31, 1, 48, 200);
    write(rt, "a falling list", settings, live, &[100, 99], 69, None)?;
    write(
        rt,
        "room for one byte less",
        settings,
        live,
        &LIST,
        63,
        Some(64),
    )
}

pub fn run(rt: &impl Print) -> io::Result<()> {
    figures(rt)?;
    refused_reading(rt)?;
    refused_writing(rt)
}
