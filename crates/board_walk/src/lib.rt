// The walk over the bays of a board that was judged: the cuts that merging makes.
#![tactic(auto)]

ghost use Rattle.std.specs.Prelude.{◌≡◌, true, ◌≤◌, ◌^◌, length, Ok};
ghost use Rattle.terms.specs.Rows.{verdict};
ghost use Rattle.board_bays.specs.Segments.{segments};
ghost use Rattle.board_bays.specs.Bays.{bay_of, record_in, rises_within};
ghost use Rattle.board_walk.specs.Walk.{bay_cuts, bays_cuts, last_cuts, board_walk};
ghost use Rattle.lists.specs.Puts.{Puts, none_after};
ghost use Rattle.board_bays.specs.Judging.{bays_rows};
ghost use Rattle.lists.specs.Written.{written_list};

use board_bays::reading::Record;
use board_bays::segments::Board;
use lists::Made;
use terms::Checked;

mod reading;

// The cuts of one bay that is done and not malformed, by its record.
fn walk_bay(list: &mut [u64], made: Made, rule: Checked, i: u64, noted: &Record) -> Made
    requires { rises_within made.cut (2 ^ 40) noted.now.offsets.now ≡ true }
    ensures { Puts (bay_cuts rule.settings.minimum rule.settings.maximum i made.cut (record { marker = noted.now.marker; offsets = noted.now.offsets.now })) made result list.old list.new }
{
    if i == 0 {
        reading::take_offsets(list, made, noted.offsets)
    } else {
        reading::read_as_marks(list, made, rule, noted)
    }
}

// The cuts of all bays of a board that was judged.
fn walk_bays(list: &mut [u64], rule: Checked, board: &Board) -> Made
    requires { verdict (bays_rows rule.settings board.now.n board.now.size board.now.width board.now.numbers.now (segments board.now.n board.now.size) 0) ≡ Ok tt }
    ensures puts { Puts (bays_cuts rule.settings.minimum rule.settings.maximum (λ i. record_in (bay_of board.now.width i board.now.numbers.now))
        (segments board.now.n board.now.size) 0 0) (none_after 0) result list.old list.new }
    ensures cut_le_n { result.cut ≤ board.now.n }
{
    let mut made = Made::after(0);
    for i in 0..board.bays() {
        let noted = board.bay(i).record();
        made = walk_bay(list, made, rule, i, &noted);
    }
    made
}

// The cuts after the last bay's, and the log's end.
fn finish(list: &mut [u64], made: Made, rule: Checked, n: u64) -> Made
    requires { made.cut ≤ n }
    ensures { Puts (last_cuts rule.settings.maximum n made.cut) made result list.old list.new }
{
    let mut forced = reading::force_cuts(list, made, rule, n);
    if forced.cut < n {
        forced.put(list, n);
    }
    forced
}

// The whole walk, over a board that was judged: how many cuts it makes.
pub fn walk_board(list: &mut [u64], rule: Checked, board: &Board) -> u64
    requires { verdict (bays_rows rule.settings board.now.n board.now.size board.now.width board.now.numbers.now (segments board.now.n board.now.size) 0) ≡ Ok tt }
    ensures value { result ≡ length (board_walk rule.settings board.now.n board.now.size board.now.width board.now.numbers.now) }
    ensures list_after { list.new ≡ written_list (board_walk rule.settings board.now.n board.now.size board.now.width board.now.numbers.now) list.old }
{
    let made = walk_bays(list, rule, board);
    finish(list, made, rule, board.n).count
}
