// A record put into its bay.
ghost use Rattle.std.specs.Prelude.{◌≡◌, ◌≤◌, length};
ghost use Rattle.board_record.specs.Records.{segment_of};
ghost use Rattle.board.specs.Recording.{recorded};
ghost use Rattle.board.specs.Inner.{filled_answer};

use board_bays::segments::Segment;
use terms::{Answer, Checked, Refusal};

// Records a segment of the log into its bay.
pub fn fill_bay(rule: Checked, log: &[u8], segment: Segment, bay: &mut [u64]) -> Answer
    requires { (segment.n ≡ length log.now) × (2 ≤ length bay.old) }
    ensures answer { result ≡ filled_answer (segment_of rule.settings log.now segment.size segment.i) (length bay.old) }
    ensures bay { bay.new ≡ recorded (segment_of rule.settings log.now segment.size segment.i) bay.old }
{
    let places = bay.len() as u64 - 2;
    let recorded = board_record::record_segment(rule, log, segment, &mut bay[2..]);
    if recorded.count > places {
        bay[0] = 0;
        bay[1] = 0;
        return Err(Refusal::RecordTooLong);
    }
    bay[0] = recorded.count + 1;
    bay[1] = recorded.marker;
    Ok(recorded.count + 2)
}
