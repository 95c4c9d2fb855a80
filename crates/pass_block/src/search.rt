// The first cut in a block. The bytes looked at lie in the block, or, for its first 48 offsets, in the window and the block's first
// bytes side by side; what no piece can end at is not rolled over.
ghost use Rattle.std.specs.Prelude.{◌≡◌, ◌++◌, ◌<◌, length, take};
ghost use Rattle.pass_block.specs.Taking.{head_of, first_cut};

use cutting::search::Cutter;

// The first offset of the block where the piece in hand can end, or the block's end. The head is the window and the block's
// first 48 bytes.
pub fn first_cut(cutter: &Cutter, since: u64, head: &[u8; 96], block: &[u8]) -> usize
    requires since_below { since < cutter.now.marks.settings.maximum }
    requires head_len { (length head.now ≡ 96) × (head.now ≡ head_of (take 48 head.now) block.now) }
    ensures { result ≡ first_cut cutter.now.marks.settings since (take 48 head.now ++ block.now) (length block.now) }
{
    let settings = cutter.marks.settings;
    let first = settings.minimum.saturating_sub(since).max(1) as usize;
    let last = block.len().min((settings.maximum - since) as usize);
    let edge = last.min(48);
    let at = cutter.marks.first_mark(head, 48 + first, 48 + edge) - 48;
    if at < edge {
        return at;
    }
    cutter.marks.first_mark(block, first.max(48), last)
}
