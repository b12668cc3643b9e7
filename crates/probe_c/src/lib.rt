// The calls of `probe` under their names in C: the archive that tests and benchmarks link, no part of the product.
#![tactic(auto)]

ghost use Rattle.std.specs.Prelude.{◌≡◌, length};
ghost use Rattle.book.specs.Reading.{found, places_after_read};
ghost use Rattle.book_writer.specs.Writing.{written, buffer_after_write};
ghost use Rattle.strike.specs.Striking.{struck, buffer_after_strike};
ghost use Rattle.pool.specs.Pooling.{pooled, places_after_pool};
ghost use Rattle.calls.specs.Records.{slices_of};
ghost use Rattle.calls.specs.Run.{ran, answers_after};
ghost use Rattle.probe.specs.Probe.{count_code, cause_code, pass_count};

// Writes a book at a spacing, and answers its length, or 2^32 and the cause's number.
#[unsafe(no_mangle)]
pub extern "C" fn probe_write(
    spacing: u32,
    numbers: &[u16],
    spectra: &[u16],
    buffer: &mut [u8],
) -> u64
    ensures value { result ≡ count_code (written spacing numbers.now spectra.now (length buffer.old)) }
    ensures buffer_after { buffer.new ≡ buffer_after_write spacing numbers.now spectra.now buffer.old }
{
    probe::probe_write(spacing, numbers, spectra, buffer)
}

// Reads a shade of a book of a spacing, and answers 0, or the cause's number.
#[unsafe(no_mangle)]
pub extern "C" fn probe_read(spacing: u32, book: &[u8], number: u16, places: &mut [u16]) -> u32
    ensures value { result ≡ cause_code (found spacing book.now number (length places.old)) }
    ensures places_after { places.new ≡ places_after_read spacing book.now number places.old }
{
    probe::probe_read(spacing, book, number, places)
}

// Strikes a shade of the book of a spacing that fills the buffer, and answers the length of the book that is left, or 2^32 and the cause's number.
#[unsafe(no_mangle)]
pub extern "C" fn probe_strike(spacing: u32, number: u16, buffer: &mut [u8]) -> u64
    ensures value { result ≡ count_code (struck spacing number buffer.old) }
    ensures buffer_after { buffer.new ≡ buffer_after_strike spacing number buffer.old }
{
    probe::probe_strike(spacing, number, buffer)
}

// Pools spots at a spacing, and answers 0, or the cause's number.
#[unsafe(no_mangle)]
pub extern "C" fn probe_pool(spacing: u32, count: u32, spots: &[u16], places: &mut [u16]) -> u32
    ensures value { result ≡ cause_code (pooled spacing count spots.now (length places.old)) }
    ensures places_after { places.new ≡ places_after_pool spacing count spots.now places.old }
{
    probe::probe_pool(spacing, count, spots, places)
}

// Runs a list of calls, and answers how many were answered, or 2^32 and the cause's number.
#[unsafe(no_mangle)]
pub extern "C" fn probe_run(
    records: &[u32],
    tables: &[u32],
    spectra: &[u16],
    books: &[u8],
    buffer: &mut [u32],
) -> u64
    ensures value { result ≡ count_code (ran records.now (length buffer.old)) }
    ensures buffer_after { buffer.new ≡ answers_after records.now (slices_of tables.now spectra.now books.now) buffer.old }
{
    probe::probe_run(records, tables, spectra, books, buffer)
}

// How many of some trials of one spectrum pass, against a standard under a light at 5 nm, at a tolerance in CIELAB.
#[unsafe(no_mangle)]
pub extern "C" fn probe_trials(
    light: u32,
    standard: &[u16],
    trial: &[u16],
    amount: u32,
    count: u32,
) -> u32
    ensures { result ≡ pass_count light standard.now trial.now amount count }
{
    probe::probe_trials(light, standard, trial, amount, count)
}
