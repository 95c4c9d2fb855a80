// Answers that are a count, numbered.
ghost use Rattle.std.specs.Prelude.{◌≡◌};
ghost use Rattle.thrunglow.specs.Outcomes.{outcome_of};

use terms::Answer;

// A number, 0 for a success, and the entries or bytes written: plain numbers, as C takes them.
#[repr(C)]
#[derive(Clone, Copy)]
pub struct Outcome {
    pub number: u32,
    pub count: u64,
}

impl From<Answer> for Outcome {
    ghost from_gives = { λ answer outcome. outcome ≡ outcome_of answer };

    #[tactic(auto, unfolding(terms::specs::Answers::answer_number, terms::specs::Answers::answer_count))]
    fn from(answer: Answer) -> Outcome {
        match answer {
            Ok(count) => Outcome { number: 0, count },
            Err(why) => Outcome {
                number: u32::from(why),
                count: 0,
            },
        }
    }
}
