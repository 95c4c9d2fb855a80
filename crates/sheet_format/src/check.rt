// The check word of a sheet marked CUTS.
ghost use Rattle.std.specs.Prelude.{◌≡◌, ◌≤◌, length};
ghost use Rattle.words.specs.Numbers.{numbers_of};
ghost use Rattle.sheet_format.specs.Forms.{check_word, cuts_form};
ghost use Rattle.sheet_format.specs.Sheets.{checked};

use words::numbers::number;

// The word that, after the words of these bytes, makes all add to zero modulo 2^32.
pub fn check_word(bytes: &[u8]) -> u32
    ensures { result ≡ check_word (numbers_of 4 bytes.now) }
{
    let mut sum: u32 = 0;
    for word in bytes.chunks_exact(4) {
        sum = sum.wrapping_add(number(word) as u32);
    }
    0u32.wrapping_sub(sum)
}

// Whether the last word of a sheet is the check word of those before it. It is inner: the caller sees that there is a word.
pub fn is_checked(sheet: &[u8]) -> bool
    requires { 4 ≤ length sheet.now }
    ensures { result ≡ checked cuts_form sheet.now }
{
    let (before, last) = sheet.split_at(sheet.len() - 4);
    number(last) == u64::from(check_word(before))
}
