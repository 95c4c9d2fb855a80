// The cut sheet: a list of cuts with its settings and label, written to bytes and read back.
#![tactic(auto)]

ghost use Rattle.std.specs.Prelude.{◌≡◌, length};
ghost use Rattle.terms.specs.Rows.{verdict};
ghost use Rattle.sheet.specs.Write.{write_sheet_rows, write_sheet_answer, write_sheet_leaves};
ghost use Rattle.sheet.specs.Read.{read_sheet_answer, read_sheet_leaves};

use sheet_format::body::take_offsets;
use sheet_format::judging::judge;
use sheet_format::sealing::put_sheet;
use terms::{Answer, Label, Refusal, Settings};

// What a sheet says: its label, its settings and the number of its cuts.
#[derive(Clone, Copy, Debug, PartialEq, Eq)]
pub struct Sheet {
    pub label: Label,
    pub settings: Settings,
    pub count: u64,
}

// The rows of writing in their order: 1, 10, 16 and 5.
fn judge_list(settings: Settings, list: &[u64], room: usize) -> Result<(), Refusal>
    ensures { result ≡ verdict (write_sheet_rows settings list.now room) }
{
    if !settings.in_range() {
        return Err(Refusal::SettingsOutOfRange);
    }
    if !lists::well_formed(settings, list) {
        return Err(Refusal::ListNotWellFormed);
    }
    if list.len() > 1_048_576 {
        return Err(Refusal::TooManyCuts);
    }
    if room < 8 * list.len() + 32 {
        return Err(Refusal::RoomTooShort);
    }
    Ok(())
}

// Writes a list with its settings and label as a sheet, from the first of the bytes on.
pub fn write_sheet(settings: Settings, label: Label, list: &[u64], bytes: &mut [u8]) -> Answer
    ensures answer { result ≡ write_sheet_answer settings list.now (length bytes.old) }
    ensures bytes { bytes.new ≡ write_sheet_leaves settings label list.now bytes.old }
{
    judge_list(settings, list, bytes.len())?;
    put_sheet(settings, label, list, bytes);
    let size = 8 * list.len() + 32;
    Ok(size as u64)
}

// Reads the sheet at the end of the bytes, where it bears the label that is asked for, and writes its list.
pub fn read_sheet(bytes: &[u8], asked: Label, list: &mut [u64]) -> Result<Sheet, Refusal>
    ensures answer { result ≡ read_sheet_answer bytes.now asked (length list.old) }
    ensures list { list.new ≡ read_sheet_leaves bytes.now asked list.old }
{
    let found = judge(bytes)?;
    let trailer = found.trailer;
    let wanted = u8::from(asked);
    if trailer.label != wanted {
        return Err(Refusal::OtherLabel);
    }
    if (list.len() as u64) < trailer.count {
        return Err(Refusal::RoomTooShort);
    }
    take_offsets(found.body, list);
    Ok(Sheet {
        label: asked,
        settings: trailer.settings,
        count: trailer.count,
    })
}
