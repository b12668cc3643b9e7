// Little-endian numbers in byte slices: of 2 and of 4 bytes, of 4 bytes with a sign, and runs of 2 bytes each.
#![tactic(auto)]

ghost use Rattle.std.specs.Prelude.{◌≡◌, ◌+◌, ◌*◌, ◌≤◌, length};
ghost use Rattle.std.proofs.lemmas.List.Edits.{sets};
ghost use Rattle.endian.specs.Bytes.{le16, le32, at16, at32, words as wordsAt, bytes_of, twos};

// The number that the 2 bytes at a place are. Numbers of 2 and of 4 bytes have a function each, over the library's bytes of a number: a generic one
// would need a trait of these two types with the same two lines in each.
#[tactic(auto, using(crate::proofs::Parts::at16_is))]
pub fn read16(s: &[u8], at: usize) -> u16
    requires { at + 2 ≤ length s.now }
    ensures { result ≡ at16 s.now at }
{
    u16::from_le_bytes([s[at], s[at + 1]])
}

// The number that the 4 bytes at a place are.
#[tactic(auto, using(crate::proofs::Parts::at32_is))]
pub fn read32(s: &[u8], at: usize) -> u32
    requires { at + 4 ≤ length s.now }
    ensures { result ≡ at32 s.now at }
{
    u32::from_le_bytes([s[at], s[at + 1], s[at + 2], s[at + 3]])
}

// Writes a number into the 2 bytes at a place.
#[tactic(auto, using(stores::proofs::Runs::sets_mid, crate::proofs::Parts::le16_is))]
pub fn write16(buf: &mut [u8], at: usize, x: u16)
    requires { at + 2 ≤ length buf.old }
    ensures { buf.new ≡ sets buf.old at (le16 x) }
{
    buf[at..at + 2].copy_from_slice(&x.to_le_bytes());
}

// Writes a number into the 4 bytes at a place.
#[tactic(auto, using(stores::proofs::Runs::sets_mid, crate::proofs::Parts::le32_is))]
pub fn write32(buf: &mut [u8], at: usize, x: u32)
    requires { at + 4 ≤ length buf.old }
    ensures { buf.new ≡ sets buf.old at (le32 x) }
{
    buf[at..at + 4].copy_from_slice(&x.to_le_bytes());
}

// The bits of a signed number, as a number.
pub fn bits(x: i32) -> u32
    ensures { result ≡ twos x }
{
    x.cast_unsigned()
}

// Writes a signed number into the 4 bytes at a place.
pub fn write_i32(buf: &mut [u8], at: usize, x: i32)
    requires { at + 4 ≤ length buf.old }
    ensures { buf.new ≡ sets buf.old at (le32 (twos x)) }
{
    write32(buf, at, bits(x));
}

// Reads as many numbers of 2 bytes as there are places, one after the other.
#[tactic(auto, using(crate::proofs::Words::words_read), unfolding(crate::specs::Bytes::words))]
pub fn read_words(s: &[u8], from: usize, out: &mut [u16])
    requires { from + 2 * length out.old ≤ length s.now }
    ensures { out.new ≡ wordsAt s.now from 2 (length out.old) }
{
    // by place, and not over `chunks_exact`, as what is written is named by its place
    for (i, word) in out.iter_mut().enumerate() {
        *word = read16(s, from + 2 * i);
    }
}

// Writes the numbers, 2 bytes each, from the start of the part that is lent.
#[tactic(auto, using(crate::proofs::Words::bytes_of_written), unfolding(crate::specs::Bytes::bytes_of))]
pub fn write_words(part: &mut [u8], words: &[u16])
    requires { 2 * length words.now ≤ length part.old }
    ensures { part.new ≡ sets part.old 0 (bytes_of words.now) }
{
    for (i, word) in words.iter().enumerate() {
        write16(part, 2 * i, *word);
    }
}
