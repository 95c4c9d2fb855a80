// Segments recorded into a board, or into a bay lent alone, and the board merged.
ghost use Rattle.std.specs.Prelude.{◌≡◌, length};
ghost use Rattle.board.specs.Recording.{record_answer, record_leaves, segment_answer, segment_leaves};
ghost use Rattle.board.specs.Merging.{merge_answer, merge_leaves};
ghost use Rattle.thrunglow.specs.Outcomes.{outcome_of};

use super::answers::Outcome;
use terms::Settings;

pub fn thrunglow_segment(
    settings: Settings,
    log: &[u8],
    size: u64,
    width: u64,
    index: u64,
    board: &mut [u64],
) -> Outcome
    ensures answer { result ≡ outcome_of (segment_answer settings log.now size width index (length board.old)) }
    ensures board { board.new ≡ segment_leaves settings log.now size width index board.old }
{
    Outcome::from(board::segment(settings, log, size, width, index, board))
}

pub fn thrunglow_record(
    settings: Settings,
    log: &[u8],
    size: u64,
    index: u64,
    bay: &mut [u64],
) -> Outcome
    ensures answer { result ≡ outcome_of (record_answer settings log.now size (length bay.old) index) }
    ensures bay { bay.new ≡ record_leaves settings log.now size index bay.old }
{
    Outcome::from(board::record(settings, log, size, index, bay))
}

pub fn thrunglow_merge(
    settings: Settings,
    bytes: u64,
    size: u64,
    width: u64,
    board: &[u64],
    list: &mut [u64],
) -> Outcome
    ensures answer { result ≡ outcome_of (merge_answer settings bytes size width board.now (length list.old)) }
    ensures list { list.new ≡ merge_leaves settings bytes size width board.now list.old }
{
    Outcome::from(board::merge(settings, bytes, size, width, board, list))
}
