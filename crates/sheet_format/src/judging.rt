// Judging the sheet at the end of bytes, whatever is asked for.
ghost use Rattle.std.specs.Prelude.{◌≡◌, Err, IfOk, IfErr};
ghost use Rattle.terms.specs.Rows.{verdict};
ghost use Rattle.sheet_format.specs.Forms.{cuts_form};
ghost use Rattle.sheet_format.specs.Clean.{trailer_of, body_in, clean_rows, ReadsCleanly};

use crate::body::{body_in, is_well_formed, sheet_in};
use crate::check::is_checked;
use crate::trailer::{Trailer, has_trailer, trailer_of};
use terms::Refusal;

// A sheet that reads cleanly, where it stands in bytes.
#[derive(Clone, Copy)]
pub struct Found<'a> {
    pub trailer: Trailer,
    pub body: &'a [u8],
}

// The rows in their order: 12, 14, 13 and 10.
pub fn judge(bytes: &[u8]) -> Result<Found<'_>, Refusal>
    ensures ok { IfOk result (λ found. (ReadsCleanly cuts_form bytes.now) × (found.trailer ≡ trailer_of bytes.now) × (found.body.now ≡ body_in bytes.now)) }
    ensures err { IfErr result (λ why. verdict (clean_rows cuts_form bytes.now) ≡ Err why) }
{
    if !has_trailer(b"CUTS", bytes) {
        return Err(Refusal::NoSheet);
    }
    let trailer = trailer_of(bytes);
    if !trailer.is_right((bytes.len() - 32) as u64) {
        return Err(Refusal::TrailerWrong);
    }
    if !is_checked(sheet_in(trailer.distance, bytes)) {
        return Err(Refusal::CheckWordWrong);
    }
    let body = body_in(trailer.distance, bytes);
    if !is_well_formed(trailer.settings, body) {
        return Err(Refusal::ListNotWellFormed);
    }
    Ok(Found { trailer, body })
}
