// The calls on a board: a segment recorded into its bay of a whole board, or into a bay that is lent alone, so that each thread can have its
// own; and the bays merged.
#![tactic(auto)]

ghost use Rattle.std.specs.Prelude.{◌≡◌, length};
ghost use Rattle.board.specs.Recording.{record_answer, record_leaves, segment_answer, segment_leaves};
ghost use Rattle.board.specs.Merging.{merge_answer, merge_leaves};

use board_bays::segments::{Board, Segment};
use board_bays::shapes::{bay_fits, board_fits, judge, segment_fits};
use terms::{Answer, Checked, Refusal, Settings};

mod filling;

// Records segment i into its bay of a board; every other bay stays as it was.
pub fn segment(
    settings: Settings,
    log: &[u8],
    size: u64,
    width: u64,
    i: u64,
    board: &mut [u64],
) -> Answer
    ensures answer { result ≡ segment_answer settings log.now size width i (length board.old) }
    ensures board { board.new ≡ segment_leaves settings log.now size width i board.old }
{
    let n = log.len() as u64;
    let fits = segment_fits(n, size, width, i, board.len() as u64);
    judge(settings, n, fits)?;
    // As board_bays::reading::bay_at reads it; one function cannot lend both a `&` and a `&mut`.
    let start = (i * width) as usize;
    let bay = &mut board[start..start + width as usize];
    filling::fill_bay(Checked { settings }, log, Segment { n, size, i }, bay)
}

// Records segment i into a bay lent alone.
pub fn record(settings: Settings, log: &[u8], size: u64, i: u64, bay: &mut [u64]) -> Answer
    ensures answer { result ≡ record_answer settings log.now size (length bay.old) i }
    ensures bay { bay.new ≡ record_leaves settings log.now size i bay.old }
{
    let n = log.len() as u64;
    let fits = bay_fits(n, size, bay.len() as u64, i);
    judge(settings, n, fits)?;
    filling::fill_bay(Checked { settings }, log, Segment { n, size, i }, bay)
}

// Merges the bays into the log's list of cuts. The log itself is not needed, only its length; all bays are judged before the first cut is written.
pub fn merge(
    settings: Settings,
    n: u64,
    size: u64,
    width: u64,
    board: &[u64],
    list: &mut [u64],
) -> Answer
    ensures answer { result ≡ merge_answer settings n size width board.now (length list.old) }
    ensures list { list.new ≡ merge_leaves settings n size width board.now list.old }
{
    let fits = board_fits(n, size, width, board.len() as u64);
    judge(settings, n, fits)?;
    let places = list.len() as u64;
    if places < n / settings.minimum + 1 {
        return Err(Refusal::RoomTooShort);
    }
    let bays = Board {
        n,
        size,
        width,
        numbers: board,
    };
    board_bays::judging::judge_bays(settings, &bays)?;
    let count = board_walk::walk_board(list, Checked { settings }, &bays);
    if count > places {
        return Err(Refusal::ListFull);
    }
    Ok(count)
}
