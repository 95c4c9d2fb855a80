// The exports for C and Rust, `thrunglow_NAME`. Each calls the function of its name in the crate thrunglow and states its clauses again,
// since a library exports nothing and no crate can stand on a static library.
#![tactic(auto)]

ghost use Rattle.std.specs.Prelude.{◌≡◌, length};
ghost use Rattle.cutting.specs.Calls.{cut_log_answer, cut_log_leaves};
ghost use Rattle.pass.specs.Calls.{fresh_outcome, block_outcome, block_leaves, close_outcome, close_leaves};
ghost use Rattle.board.specs.Recording.{record_answer, record_leaves, segment_answer, segment_leaves};
ghost use Rattle.board.specs.Merging.{merge_answer, merge_leaves};
ghost use Rattle.amending.specs.Answers.{amend_answer, amend_leaves};
ghost use Rattle.sheet.specs.Write.{write_sheet_answer, write_sheet_leaves};
ghost use Rattle.sheet.specs.Read.{read_sheet_answer, read_sheet_leaves};
ghost use Rattle.thrunglow.specs.Outcomes.{outcome_of};
ghost use Rattle.thrunglow.specs.Pass.{passed_of};
ghost use Rattle.thrunglow.specs.Amends.{counts_of};
ghost use Rattle.thrunglow.specs.Sheets.{label_of, reading_of};

use pass_carry::Carry;
use terms::Settings;
use thrunglow::amends::Amendment;
use thrunglow::answers::Outcome;
use thrunglow::passes::Passed;
use thrunglow::sheets::Reading;
use thrunglow::{amends, passes, segments, sheets, whole};

#[unsafe(no_mangle)]
pub extern "C" fn thrunglow_cut_log(settings: Settings, log: &[u8], list: &mut [u64]) -> Outcome
    ensures answer { result ≡ outcome_of (cut_log_answer settings log.now (length list.old)) }
    ensures list { list.new ≡ cut_log_leaves settings log.now list.old }
{
    whole::thrunglow_cut_log(settings, log, list)
}

#[unsafe(no_mangle)]
pub extern "C" fn thrunglow_fresh(settings: Settings) -> Passed
    ensures answer { result ≡ passed_of (fresh_outcome settings) }
{
    passes::thrunglow_fresh(settings)
}

#[unsafe(no_mangle)]
pub extern "C" fn thrunglow_block(carry: Carry, block: &[u8], list: &mut [u64]) -> Passed
    ensures answer { result ≡ passed_of (block_outcome carry block.now (length list.old)) }
    ensures list { list.new ≡ block_leaves carry block.now list.old }
{
    passes::thrunglow_block(carry, block, list)
}

#[unsafe(no_mangle)]
pub extern "C" fn thrunglow_close(carry: Carry, list: &mut [u64]) -> Passed
    ensures answer { result ≡ passed_of (close_outcome carry (length list.old)) }
    ensures list { list.new ≡ close_leaves carry list.old }
{
    passes::thrunglow_close(carry, list)
}

#[unsafe(no_mangle)]
pub extern "C" fn thrunglow_segment(
    settings: Settings,
    log: &[u8],
    size: u64,
    width: u64,
    index: u64,
    board: &mut [u64],
) -> Outcome
    ensures answer { result ≡ outcome_of (segment_answer settings log.now size width index (length board.old)) }
    ensures board { board.new ≡ segment_leaves settings log.now size width index board.old }
{
    segments::thrunglow_segment(settings, log, size, width, index, board)
}

#[unsafe(no_mangle)]
pub extern "C" fn thrunglow_record(
    settings: Settings,
    log: &[u8],
    size: u64,
    index: u64,
    bay: &mut [u64],
) -> Outcome
    ensures answer { result ≡ outcome_of (record_answer settings log.now size (length bay.old) index) }
    ensures bay { bay.new ≡ record_leaves settings log.now size index bay.old }
{
    segments::thrunglow_record(settings, log, size, index, bay)
}

#[unsafe(no_mangle)]
pub extern "C" fn thrunglow_merge(
    settings: Settings,
    bytes: u64,
    size: u64,
    width: u64,
    board: &[u64],
    list: &mut [u64],
) -> Outcome
    ensures answer { result ≡ outcome_of (merge_answer settings bytes size width board.now (length list.old)) }
    ensures list { list.new ≡ merge_leaves settings bytes size width board.now list.old }
{
    segments::thrunglow_merge(settings, bytes, size, width, board, list)
}

#[unsafe(no_mangle)]
pub extern "C" fn thrunglow_amend(
    settings: Settings,
    old: &[u64],
    at: u64,
    removed: u64,
    added: u64,
    log: &[u8],
    list: &mut [u64],
) -> Amendment
    ensures answer { result ≡ counts_of (amend_answer settings old.now (record { at = at; removed = removed; added = added }) log.now (length list.old)) }
    ensures list { list.new ≡ amend_leaves settings old.now (record { at = at; removed = removed; added = added }) log.now list.old }
{
    amends::thrunglow_amend(settings, old, at, removed, added, log, list)
}

#[unsafe(no_mangle)]
pub extern "C" fn thrunglow_write_sheet(
    settings: Settings,
    live: bool,
    list: &[u64],
    bytes: &mut [u8],
) -> Outcome
    ensures answer { result ≡ outcome_of (write_sheet_answer settings list.now (length bytes.old)) }
    ensures bytes { bytes.new ≡ write_sheet_leaves settings (label_of live) list.now bytes.old }
{
    sheets::thrunglow_write_sheet(settings, live, list, bytes)
}

#[unsafe(no_mangle)]
pub extern "C" fn thrunglow_read_sheet(bytes: &[u8], live: bool, list: &mut [u64]) -> Reading
    ensures answer { result ≡ reading_of (read_sheet_answer bytes.now (label_of live) (length list.old)) }
    ensures list { list.new ≡ read_sheet_leaves bytes.now (label_of live) list.old }
{
    sheets::thrunglow_read_sheet(bytes, live, list)
}
