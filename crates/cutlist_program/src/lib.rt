// What the program cutlist does: it prints the cuts of standard input under the house settings, a line a cut with its offset and
// the length of its piece, and a last line with the count of cuts and of bytes. What is a cut is decided by the crate pass alone.
#![tactic(auto)]

ghost use Rattle.std.specs.Prelude.{◌≡◌, ◌+◌, ◌*◌, ◌≤◌, ◌++◌, length, take};
ghost use Rattle.arrayvec.specs.ArrayVec.{array_vec_len};
ghost use Rattle.laws.specs.Last.{last_or};
ghost use Rattle.cutlist_program.specs.Text.{spelled, pair, lines, counts};

use arrayvec::{ArrayString, ArrayVec};
use pass_carry::{Carry, Outcome};
use std::fmt::Write;
use std::io::{Error, Read};
use terms::Refusal;

// The log so far: the carry, the last cut, and how many there are.
#[derive(Clone, Copy)]
struct Log {
    carry: Carry,
    last: u64,
    cuts: u64,
}

// Trouble that standard error has been told: nothing more is printed.
#[derive(Clone, Copy)]
struct Told;

// Says on standard error why a call was refused. Where that takes nothing either, nobody is left to be told.
fn complain(rt: &impl Eprint, why: Refusal) -> Told {
    if let Refusal::LogTooLong = why {
        let _ = rt.eprintln("cutlist: the log is past 2^40 bytes");
    } else {
        let number = u32::from(why);
        let _ = eprintln!(rt; "cutlist: refused by number {number}");
    }
    Told
}

// The system's words in an error's text, without the number that stands behind them.
fn words_of(text: &str) -> &str {
    match text.rsplit_once(" (os error ") {
        Some((words, _)) => words,
        None => text,
    }
}

// Says on standard error what failed, and why.
fn fail(rt: &impl Eprint, what: &str, error: Error) -> Told {
    let mut text = ArrayString::<320>::new();
    let _ = write!(text, "{error}");
    let why = words_of(text.as_str());
    let _ = eprintln!(rt; "{what}: {why}");
    Told
}

// Writes a text to standard output, all of it or with trouble.
fn print(rt: &(impl Print + Eprint), text: &[u8]) -> Result<(), Told> {
    rt.write_all(text)
        .map_err(|error| fail(rt, "cutlist: cannot write", error))
}

// Puts a run of bytes at a text's end. Numbers are put by their digits and not by `write!`, which promises nothing of when a text has room.
// It and the four below each ask for the room of what they put themselves: 20 bytes for a number, 53 for the last line, 42 for the line of a cut.
fn put<const N: usize>(text: &mut ArrayVec<u8, N>, run: &[u8])
    requires { array_vec_len text.old + length run.now ≤ N }
    ensures items { text.new.items ≡ text.old.items ++ run.now }
    ensures len { array_vec_len text.new ≡ array_vec_len text.old + length run.now }
{
    let _fits = text.try_extend_from_slice(run);
}

// Puts a number's digits at a text's end.
fn put_number<const N: usize>(text: &mut ArrayVec<u8, N>, n: u64)
    requires { array_vec_len text.old + 20 ≤ N }
    ensures items { text.new.items ≡ text.old.items ++ spelled n }
    ensures len { array_vec_len text.new ≤ array_vec_len text.old + 20 }
{
    let mut digits = [0u8; 20];
    let count = io::decimal(n, &mut digits);
    put(text, &digits[..count]);
}

// Puts two numbers at a text's end, a run of bytes between them and a line end after them.
fn put_pair<const N: usize>(text: &mut ArrayVec<u8, N>, n: u64, between: &[u8], m: u64)
    requires { array_vec_len text.old + (41 + length between.now) ≤ N }
    ensures items { text.new.items ≡ text.old.items ++ pair n between.now m }
    ensures len { array_vec_len text.new ≤ array_vec_len text.old + (41 + length between.now) }
{
    put_number(text, n);
    put(text, between);
    put_number(text, m);
    put(text, b"\n");
}

// Puts the last line at a text's end.
fn put_counts<const N: usize>(text: &mut ArrayVec<u8, N>, cuts: u64, bytes: u64)
    requires { array_vec_len text.old + 53 ≤ N }
    ensures { text.new.items ≡ text.old.items ++ counts cuts bytes }
{
    put(text, b"cuts ");
    put_pair(text, cuts, b" bytes ", bytes);
}

// Puts the lines of some cuts at a text's end, and answers the last of them. The first piece begins at `last`.
fn put_lines<const N: usize>(text: &mut ArrayVec<u8, N>, cuts: &[u64], last: u64) -> u64
    requires { array_vec_len text.old + 42 * length cuts.now ≤ N }
    ensures put { text.new.items ≡ text.old.items ++ lines last cuts.now }
    ensures last_value { result ≡ last_or last cuts.now }
{
    let mut before = last;
    for cut in cuts {
        put_pair(text, *cut, b" ", cut.saturating_sub(before));
        before = *cut;
    }
    before
}

// The entries of a lent list that a call wrote.
fn written(list: &[u64], count: u64) -> &[u64]
    ensures { result.now ≡ take count list.now }
{
    let end = list.len().min(count as usize);
    &list[..end]
}

// Prints the cuts that a call wrote into a list, if it was not refused.
fn print_cuts(
    rt: &(impl Print + Eprint),
    log: Log,
    outcome: Outcome,
    list: &[u64],
) -> Result<Log, Told>
    requires { length list.now ≤ 33 }
{
    let count = outcome.answer.map_err(|why| complain(rt, why))?;
    let mut text = ArrayVec::<u8, 1_386>::new();
    let last = put_lines(&mut text, written(list, count), log.last);
    print(rt, text.as_slice())?;
    let carry = outcome.carry;
    Ok(Log {
        carry,
        last,
        cuts: log.cuts.wrapping_add(count),
    })
}

// Prints the last line.
fn print_counts(rt: &(impl Print + Eprint), cuts: u64, bytes: u64) -> Result<(), Told> {
    let mut text = ArrayVec::<u8, 53>::new();
    put_counts(&mut text, cuts, bytes);
    print(rt, text.as_slice())
}

// Reads once and cuts what came, be it less than the buffer holds; only a read of nothing is the end of the log.
fn read_once(
    rt: &(impl Print + Eprint),
    input: &mut impl Read,
    log: Log,
    buffer: &mut [u8],
) -> Result<Option<Log>, Told> {
    let n = input
        .read(buffer)
        .map_err(|error| fail(rt, "cutlist: cannot read", error))?;
    if n == 0 {
        return Ok(None);
    }
    let mut list = [0u64; 33];
    let carry = log.carry;
    let outcome = pass::block(carry, &buffer[..n], &mut list);
    let log = print_cuts(rt, log, outcome, &list)?;
    Ok(Some(log))
}

// Ends the log, and prints the last cut, if closing adds one, and the last line.
fn finish(rt: &(impl Print + Eprint), log: Log) -> Result<(), Told> {
    let mut list = [0u64; 33];
    let carry = log.carry;
    let outcome = pass::close(carry, &mut list);
    let log = print_cuts(rt, log, outcome, &list)?;
    print_counts(rt, log.cuts, log.carry.taken)
}

// A proved loop has to end, and nothing says that an input does: there are more turns than any log uses up.
fn read_all(rt: &(impl Print + Eprint), input: &mut impl Read, start: Log) -> Result<(), Told> {
    let mut space = io::large_buffer();
    let buffer: &mut [u8] = &mut space;
    let mut log = start;
    for _ in 0..u64::MAX {
        match read_once(rt, input, log, buffer)? {
            Some(longer) => log = longer,
            None => return finish(rt, log),
        }
    }
    Ok(())
}

// Cuts an input to its end, or to trouble that standard error has been told.
pub fn list_input(rt: &(impl Print + Eprint), input: &mut impl Read) {
    let outcome = pass::fresh(terms::HOUSE);
    let carry = outcome.carry;
    let start = Log {
        carry,
        last: 0,
        cuts: 0,
    };
    let _ = read_all(rt, input, start);
}
