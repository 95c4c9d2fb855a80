// An edit of a log: at one place so many bytes were replaced by so many others. Document 01 calls the three numbers s, d and e.
ghost use Rattle.std.specs.Prelude.{◌≡◌};
ghost use Rattle.amending.specs.Answers.{edit_fits};

#[derive(Clone, Copy)]
pub struct Edit {
    pub at: u64,
    pub removed: u64,
    pub added: u64,
}

impl Edit {
    // Whether the edit lies within the old log of n bytes and gives the new one. The numbers are any: nothing wraps.
    #[tactic(auto, using(crate::proofs::Fitting::edit_over, crate::proofs::Fitting::edit_compared), unfolding(crate::specs::Answers::edit_fits))]
    pub fn fits(self, n: u64, bytes: u64) -> bool
        ensures { result ≡ edit_fits n self bytes }
    {
        self.at <= n
            && self.removed <= n - self.at
            && self.added <= bytes
            && bytes - self.added == n - self.removed
    }
}
