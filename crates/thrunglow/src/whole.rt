// Cutting a whole log.
ghost use Rattle.std.specs.Prelude.{◌≡◌, length};
ghost use Rattle.cutting.specs.Calls.{cut_log_answer, cut_log_leaves};
ghost use Rattle.thrunglow.specs.Outcomes.{outcome_of};

use super::answers::Outcome;
use terms::Settings;

pub fn thrunglow_cut_log(settings: Settings, log: &[u8], list: &mut [u64]) -> Outcome
    ensures answer { result ≡ outcome_of (cut_log_answer settings log.now (length list.old)) }
    ensures list { list.new ≡ cut_log_leaves settings log.now list.old }
{
    Outcome::from(cutting::cut_log(settings, log, list))
}
