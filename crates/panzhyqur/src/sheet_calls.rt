// The calls for C and Rust: answers as structs of numbers.
ghost use Rattle.std.specs.Prelude.{◌≡◌, length};
ghost use Rattle.sheet.specs.Reading.{reading};
ghost use Rattle.sheet.specs.Answer.{checked_of, read_of, rows_after};
ghost use Rattle.panzhyqur.specs.SheetCalls.{sheet_numbers};

use crate::verdict::Verdict;
use base::refusal::Refusal;
use base::rows::Record;
use sheet::{Counts, check_sheet, read_sheet};

// A refusal, its place a line, or how many records of each section.
#[repr(C)]
#[derive(Clone, Copy)]
pub struct SheetNumbers {
    pub verdict: Verdict,
    pub counts: Counts,
}

impl From<Result<Counts, Refusal>> for SheetNumbers {
    ghost from_gives = { λ answer numbers. numbers ≡ sheet_numbers answer };

    fn from(answer: Result<Counts, Refusal>) -> SheetNumbers {
        match answer {
            Err(e) => SheetNumbers {
                verdict: Verdict::from(e),
                counts: Counts::default(),
            },
            Ok(counts) => SheetNumbers {
                verdict: Verdict::default(),
                counts,
            },
        }
    }
}

#[unsafe(no_mangle)]
pub extern "C" fn pz_check_sheet(text: &[u8], most: Counts) -> SheetNumbers
    ensures { result ≡ sheet_numbers (checked_of (reading most text.now)) }
{
    SheetNumbers::from(check_sheet(text, most))
}

#[unsafe(no_mangle)]
pub extern "C" fn pz_read_sheet(text: &[u8], most: Counts, rows: &mut [Record]) -> SheetNumbers
    ensures { (result ≡ sheet_numbers (read_of (length rows.old) (reading most text.now))) × (rows.new ≡ rows_after rows.old (reading most text.now)) }
{
    SheetNumbers::from(read_sheet(text, most, rows))
}
