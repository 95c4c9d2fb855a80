// The last 48 bytes beside those of a block.
ghost use Rattle.std.specs.Prelude.{◌≡◌, length, take};
ghost use Rattle.pass_carry.specs.Carries.{slid_by};
ghost use Rattle.pass_block.specs.Taking.{head_of};

// The window and, after it, the block's first 48 bytes, as many as there are, then zeros.
pub fn joined(window: &[u8; 48], block: &[u8]) -> [u8; 96]
    ensures { result ≡ head_of window.now block.now }
{
    let mut both = [0; 96];
    let count = block.len().min(48);
    both[..48].copy_from_slice(window);
    both[48..48 + count].copy_from_slice(&block[..count]);
    both
}

// The last 48 bytes once the block is taken. The head is the window and the block's first 48 bytes.
pub fn slide(head: &[u8; 96], block: &[u8]) -> [u8; 48]
    requires { (length head.now ≡ 96) × (head.now ≡ head_of (take 48 head.now) block.now) }
    ensures { result ≡ slid_by (take 48 head.now) block.now }
{
    match block.last_chunk() {
        Some(window) => *window,
        None => *head[..48 + block.len()].last_chunk().unwrap(),
    }
}
