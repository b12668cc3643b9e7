// The call for a host program: the colour of a spectrum under a built-in light. The crate `host_c` gives it to C.
#![tactic(auto)]

ghost use Rattle.std.specs.Prelude.{◌≡◌, false, ◌++◌, ◌+◌, ◌^◌, ◌≤◌, ◌<◌, length};
ghost use Rattle.std.proofs.lemmas.List.Edits.{sets};
ghost use Rattle.cie.specs.Spacing.{unknown_spacing, rows_at, spectrum_bytes};
ghost use Rattle.causes.specs.Causes.{answer_of};
ghost use Rattle.endian.specs.Bytes.{le32, words, twos};
ghost use Rattle.host.specs.Host.{answer_length, coordinate_bytes, coloured_by, coloured_of, answered, buffer_after};

use causes::Cause;
use cie::spacing;
use cie::spectrum::READER_LIMIT;
use colour::Coordinates;

// The bytes of an answer.
const ANSWER: usize = 20;

// The coordinates under a light of a spectrum held in bytes, with as many places lent for its readings as it has rows.
fn colour_through(
    light: u32,
    spacing: u32,
    spectrum: &[u8],
    places: &mut [u16],
) -> Result<Coordinates, Cause>
    requires { (unknown_spacing spacing ≡ false) × (length places.old ≡ rows_at spacing) × (length spectrum.now ≡ spectrum_bytes (rows_at spacing)) }
    ensures { answer_of result ≡ coloured_by light spacing (words spectrum.now 0 2 (rows_at spacing)) }
{
    endian::read_words(spectrum, 0, places);
    if cie::spectrum::over_bright(places, READER_LIMIT) {
        return Err(Cause::OverBright);
    }
    Ok(lights::coordinates_in(light, spacing, places))
}

// The coordinates under a light of a spectrum held in bytes, whose length tells the spacing.
fn colour_in_light(light: u32, spectrum: &[u8]) -> Result<Coordinates, Cause>
    ensures { answer_of result ≡ coloured_of light spectrum.now }
{
    if lights::is_unknown(light) {
        return Err(Cause::NoSuchLight);
    }
    let spacing = spacing::told_by(spectrum.len());
    let rows = spacing::rows_at(spacing);
    if spectrum.len() != spacing::READING_BYTES * rows {
        return Err(Cause::ShortTable);
    }
    let mut readings = [0u16; spacing::MOST_ROWS];
    colour_through(light, spacing, spectrum, &mut readings[..rows])
}

// Two signed numbers, 4 bytes each.
fn put_pair(out: &mut [u8], at: usize, p: i32, q: i32)
    requires { at + 8 ≤ length out.old }
    ensures { out.new ≡ sets out.old at (le32 (twos p) ++ le32 (twos q)) }
{
    endian::write_i32(out, at, p);
    endian::write_i32(out, at + 4, q);
}

// L, a, b, u and v, 4 bytes each.
fn put_answer(out: &mut [u8], colour: Coordinates)
    requires { (colour.l < 2 ^ 31) × (answer_length ≤ length out.old) }
    ensures { out.new ≡ sets out.old 0 (coordinate_bytes colour) }
{
    endian::write_i32(out, 0, colour.l as i32);
    put_pair(out, 4, colour.a, colour.b);
    put_pair(out, 12, colour.u, colour.v);
}

// Answers 0, with the colour in the first 20 bytes of the buffer, or the number of a cause, with the buffer as it was.
pub fn shade_colour(light: u32, spectrum: &[u8], out: &mut [u8]) -> u32
    ensures value { result ≡ answered light spectrum.now (length out.old) }
    ensures out_after { out.new ≡ buffer_after light spectrum.now out.old }
{
    match colour_in_light(light, spectrum) {
        Err(cause) => u32::from(cause),
        Ok(_) if out.len() < ANSWER => u32::from(Cause::ShortBuffer),
        Ok(colour) => {
            put_answer(out, colour);
            0
        }
    }
}
