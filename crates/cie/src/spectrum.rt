// The scale of a spectrum's readings.
ghost use Rattle.std.specs.Prelude.{◌≡◌, max, unwrap_or};
ghost use Rattle.std.specs.List.{reduce};
ghost use Rattle.cie.specs.Scales.{any_above};

// The reader's limit, of what a book holds, and so the listing's and the host call's: a reflectance of 2, in 1/10,000.
pub const READER_LIMIT: u16 = 20000;

// The frame's limit, of standards, trials and previews and of what is written into a book: a reflectance of 1.2.
pub const FRAME_LIMIT: u16 = 12000;

// The largest reading; 0 where there is none. By place, so that the edit largest_skips_first is a slip of one number.
fn largest(readings: &[u16]) -> u16
    ensures { result ≡ unwrap_or (reduce max readings.now) 0 }
{
    let mut top = 0;
    for i in 0..readings.len() {
        top = top.max(readings[i]);
    }
    top
}

// Whether a reading is above the limit: the largest of all is compared once, which costs less than `any` with its test at each.
pub fn over_bright(readings: &[u16], limit: u16) -> bool
    ensures { result ≡ any_above limit readings.now }
{
    limit < largest(readings)
}
