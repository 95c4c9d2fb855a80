// Cut sheets, written and read.
ghost use Rattle.std.specs.Prelude.{◌≡◌, length};
ghost use Rattle.sheet.specs.Write.{write_sheet_answer, write_sheet_leaves};
ghost use Rattle.sheet.specs.Read.{read_sheet_answer, read_sheet_leaves};
ghost use Rattle.thrunglow.specs.Outcomes.{outcome_of};
ghost use Rattle.thrunglow.specs.Sheets.{label_of, reading_of};

use super::answers::Outcome;
use sheet::Sheet;
use terms::{Label, Refusal, Settings};

// A number and what a sheet says, as C takes them: its label's byte, its settings and its count of cuts; all 0 beside a refusal.
#[repr(C)]
#[derive(Clone, Copy)]
pub struct Reading {
    pub number: u32,
    pub label: u8,
    pub settings: Settings,
    pub count: u64,
}

// A label is lent as whether it is live: C has no such enum, and a bool means this nowhere else.
fn label_of(live: bool) -> Label
    ensures { result ≡ label_of live }
{
    if live { Label::Live } else { Label::Practice }
}

impl From<Result<Sheet, Refusal>> for Reading {
    ghost from_gives = { λ sheet reading. reading ≡ reading_of sheet };

    #[tactic(auto, unfolding(sheet::specs::Answers::sheet_number, sheet::specs::Answers::sheet_label, sheet::specs::Answers::sheet_settings, sheet::specs::Answers::sheet_count))]
    fn from(sheet: Result<Sheet, Refusal>) -> Reading {
        match sheet {
            Ok(sheet) => Reading {
                number: 0,
                label: u8::from(sheet.label),
                settings: sheet.settings,
                count: sheet.count,
            },
            Err(why) => Reading {
                number: u32::from(why),
                label: 0,
                settings: Settings::none(),
                count: 0,
            },
        }
    }
}

pub fn thrunglow_write_sheet(
    settings: Settings,
    live: bool,
    list: &[u64],
    bytes: &mut [u8],
) -> Outcome
    ensures answer { result ≡ outcome_of (write_sheet_answer settings list.now (length bytes.old)) }
    ensures bytes { bytes.new ≡ write_sheet_leaves settings (label_of live) list.now bytes.old }
{
    Outcome::from(sheet::write_sheet(settings, label_of(live), list, bytes))
}

pub fn thrunglow_read_sheet(bytes: &[u8], live: bool, list: &mut [u64]) -> Reading
    ensures answer { result ≡ reading_of (read_sheet_answer bytes.now (label_of live) (length list.old)) }
    ensures list { list.new ≡ read_sheet_leaves bytes.now (label_of live) list.old }
{
    Reading::from(sheet::read_sheet(bytes, label_of(live), list))
}
