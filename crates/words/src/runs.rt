// Runs of bytes compared.
ghost use Rattle.std.specs.Prelude.{◌≡◌};
ghost use Rattle.words.specs.Runs.{same};

// Whether two runs of bytes are the same: a name for what the contracts call so.
#[tactic(auto, unfolding(crate::specs::Runs::same))]
pub fn same_bytes(a: &[u8], b: &[u8]) -> bool
    ensures { result ≡ same a.now b.now }
{
    a == b
}
