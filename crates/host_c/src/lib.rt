// The call of `host` under its name in C: the archive that a program in C links.
#![tactic(auto)]

ghost use Rattle.std.specs.Prelude.{◌≡◌, length};
ghost use Rattle.host.specs.Host.{answered, buffer_after};

// Answers 0, with the colour in the first 20 bytes of the buffer, or the number of a cause, with the buffer as it was.
#[unsafe(no_mangle)]
pub extern "C" fn shade_colour(light: u32, spectrum: &[u8], out: &mut [u8]) -> u32
    ensures value { result ≡ answered light spectrum.now (length out.old) }
    ensures out_after { out.new ≡ buffer_after light spectrum.now out.old }
{
    host::shade_colour(light, spectrum, out)
}
