// A bay of a board, and the record that stands in a bay.
ghost use Rattle.std.specs.Prelude.{◌≡◌, true, ◌+◌, ◌-◌, ◌*◌, ◌≤◌, length};
ghost use Rattle.board_bays.specs.Bays.{bay_of, is_done, offset_count, record_in};

// Bay i of a board of bays of so many numbers. It asks for the one bay alone, and `Board::bay` for a board that fits.
pub fn bay_at<'a>(width: u64, i: u64, board: &'a [u64]) -> &'a [u64]
    requires { i * width + width ≤ length board.now }
    ensures { result.now ≡ bay_of width i board.now }
{
    let start = (i * width) as usize;
    &board[start..start + width as usize]
}

// A bay: its number, its marker, its offsets.
#[derive(Clone, Copy)]
pub struct Bay<'a> {
    pub numbers: &'a [u64],
    pub ghost wide: { 2 ≤ length numbers.now },
}

// The marker, or 0 for none as in the bay, and the offsets.
#[derive(Clone, Copy)]
pub struct Record<'a> {
    pub marker: u64,
    pub offsets: &'a [u64],
}

impl<'a> Bay<'a> {
    // What stands in it, if it is done and its number is not too large.
    pub fn record(self) -> Record<'a>
        requires { (is_done self.numbers.now ≡ true) × (offset_count self.numbers.now ≤ length self.numbers.now - 2) }
        ensures marker { result.marker ≡ (record_in self.entry.numbers.now).marker }
        ensures offsets { result.offsets.now ≡ (record_in self.entry.numbers.now).offsets }
    {
        let count = (self.numbers[0] - 1) as usize;
        Record {
            marker: self.numbers[1],
            offsets: &self.numbers[2..count + 2],
        }
    }
}
