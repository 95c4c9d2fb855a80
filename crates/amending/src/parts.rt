// The front, and writing entries of the old list.
ghost use Rattle.std.specs.Prelude.{◌≡◌, map, ◌+◌, ◌<◌, ◌^◌, length};
ghost use Rattle.std.proofs.lemmas.List.Edits.{sets};
ghost use Rattle.laws.specs.Last.{last_or};
ghost use Rattle.amending.specs.Parts.{front_count, shifted};
ghost use Rattle.amending.specs.Inner.{Movable};

// The last entry of a list, or 0.
pub fn last_of(list: &[u64]) -> u64
    ensures { result ≡ last_or 0 list.now }
{
    list.last().copied().unwrap_or(0)
}

// How many old cuts are kept: those before the first past a place, and not the old end.
pub fn front_count(old: &[u64], place: u64) -> usize
    requires { place + 1 < 2 ^ 64 }
    ensures { result ≡ front_count place old.now }
{
    let cuts = &old[..old.len().saturating_sub(1)];
    super::meeting::climb(cuts, place + 1)
}

// Writes old cuts, moved by the bytes added less those removed, from a place of the list on, as far as it goes: the list may end before the
// place. Places are counted: a `zip` over the list's `get_mut(at..)` was tried and its proof did not close, as such a loop tells nothing of what it wrote.
// It stays a call of its own, as lists::well_formed does: its loop is then not short of registers.
#[inline(never)]
pub fn put_moved(part: &[u64], removed: u64, added: u64, list: &mut [u64], at: u64)
    requires { (at + length part.now < 2 ^ 64) × Movable removed added part.now }
    ensures { list.new ≡ sets list.old at (map (shifted removed added) part.now) }
{
    for (i, cut) in part.iter().enumerate() {
        lists::put(list, at + i as u64, *cut + added - removed);
    }
}
