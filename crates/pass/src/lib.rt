// The single pass: a log cut as it arrives, block by block, with what is carried from one block to the next.
#![tactic(auto)]

ghost use Rattle.std.specs.Prelude.{◌≡◌, length};
ghost use Rattle.pass_carry.specs.Carries.{fresh_carry};
ghost use Rattle.pass.specs.Calls.{fresh_outcome, block_outcome, block_leaves, close_outcome, close_leaves};

use pass_carry::{Carry, Outcome};
use terms::{Refusal, Settings};

// A carry that has taken nothing.
#[tactic(auto, unfolding(pass_carry::specs::Carries::fresh_carry))]
fn untouched(settings: Settings) -> Carry
    ensures { result ≡ fresh_carry settings }
{
    Carry {
        settings,
        taken: 0,
        since: 0,
        window: [0; 48],
        signature: 0,
        closed: 0,
    }
}

// The carry that a log starts with.
#[tactic(auto, unfolding(crate::specs::Calls::fresh_rows, crate::specs::Calls::fresh_outcome, terms::specs::Rows::verdict))]
pub fn fresh(settings: Settings) -> Outcome
    ensures answer { result ≡ fresh_outcome settings }
{
    match settings.checked() {
        Ok(rule) => Outcome::wrote(untouched(rule.settings), 0),
        Err(why) => {
            let nothing = Settings::none();
            Outcome::refused(untouched(nothing), why)
        }
    }
}

// Takes the next bytes of the log, and writes the cuts among them.
pub fn block(carry: Carry, bytes: &[u8], list: &mut [u64]) -> Outcome
    ensures answer { result ≡ block_outcome carry bytes.now (length list.old) }
    ensures list { list.new ≡ block_leaves carry bytes.now list.old }
{
    if let Err(why) = carry.judge() {
        return Outcome::refused(carry, why);
    }
    let count = bytes.len() as u64;
    if carry.taken + count > terms::LONGEST {
        return Outcome::refused(carry, Refusal::LogTooLong);
    }
    let places = list.len() as u64;
    if places < count / carry.settings.minimum + 1 {
        return Outcome::refused(carry, Refusal::RoomTooShort);
    }
    if bytes.is_empty() {
        return Outcome::wrote(carry, 0);
    }
    pass_block::take_block(carry, bytes, list)
}

// Ends the log: its end is written where it is not yet a cut.
pub fn close(carry: Carry, list: &mut [u64]) -> Outcome
    ensures answer { result ≡ close_outcome carry (length list.old) }
    ensures list { list.new ≡ close_leaves carry list.old }
{
    if let Err(why) = carry.judge() {
        return Outcome::refused(carry, why);
    }
    if list.is_empty() {
        return Outcome::refused(carry, Refusal::RoomTooShort);
    }
    let shut = Carry { closed: 1, ..carry };
    if carry.since > 0 {
        list[0] = carry.taken;
        return Outcome::wrote(shut, 1);
    }
    Outcome::wrote(shut, 0)
}
