// Whether a carry is in order.
ghost use Rattle.std.specs.Prelude.{◌≡◌, ◌-◌, take};
ghost use Rattle.terms.specs.Rows.{verdict};
ghost use Rattle.pass_carry.specs.Carries.{all_zero, in_order};
ghost use Rattle.pass_carry.specs.Outcomes.{carry_rows};

use super::Carry;
use signature::Tables;
use terms::Refusal;

impl Carry {
    // Whether the places of the window that lie before the log's start are zero.
    fn zeros_first(&self) -> bool
        ensures { result ≡ all_zero (take (48 - self.now.taken) self.now.window) }
    {
        let places = 48_u64.saturating_sub(self.taken) as usize;
        self.window[..places].iter().all(|byte| *byte == 0)
    }

    #[tactic(auto, unfolding(crate::specs::Carries::in_order))]
    pub fn in_order(&self) -> bool
        ensures { result ≡ in_order self.now }
    {
        self.since <= self.taken
            && self.since < self.settings.maximum
            && self.signature == Tables::new().of_window(&self.window)
            && self.zeros_first()
            && self.taken <= terms::LONGEST
            && self.closed <= 1
    }

    // A carry handed in: its settings, its order, whether it is closed.
    #[tactic(auto, unfolding(crate::specs::Outcomes::carry_rows, terms::specs::Rows::verdict))]
    pub fn judge(&self) -> Result<(), Refusal>
        ensures { result ≡ verdict (carry_rows self.now) }
    {
        let _ = self.settings.checked()?;
        if !self.in_order() {
            return Err(Refusal::CarryNotInOrder);
        }
        if self.closed == 1 {
            return Err(Refusal::CarryClosed);
        }
        Ok(())
    }
}
