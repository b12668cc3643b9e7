// A line of text in a buffer of its own, as it is written and printed.
ghost use Rattle.std.specs.Prelude.{◌≡◌, ◌+◌, ◌*◌, ◌≤◌, ◌<◌, length};

#[derive(Debug, Drop)]
pub struct Sheet<const N: usize> {
    bytes: [u8; N],
    // how many bytes are written
    end: usize,
}

impl<const N: usize> Sheet<N> {
    pub fn new() -> Sheet<N>
        ensures { result.end ≡ 0 }
    {
        Sheet {
            bytes: [0; N],
            end: 0,
        }
    }

    // The bytes as they are.
    pub fn put(&mut self, bytes: &[u8])
        requires { self.old.end + length bytes.now ≤ N }
        ensures { self.new.end ≡ self.old.end + length bytes.now }
    {
        self.end = text::put(&mut self.bytes, self.end, bytes);
    }

    // A space and a number.
    pub fn put_field(&mut self, n: u32)
        requires { self.old.end + 11 ≤ N }
        ensures { self.new.end ≤ self.old.end + 11 }
    {
        self.put(b" ");
        self.end = text::put_number(&mut self.bytes, self.end, n);
    }

    // A space and a signed number.
    pub fn put_signed_field(&mut self, x: i32)
        requires { self.old.end + 12 ≤ N }
        ensures { self.new.end ≤ self.old.end + 12 }
    {
        self.put(b" ");
        self.end = text::put_signed(&mut self.bytes, self.end, x);
    }

    // Numbers, each after a space.
    pub fn put_fields(&mut self, numbers: &[u32])
        requires { self.old.end + 11 * length numbers.now ≤ N }
        ensures { self.new.end ≤ self.old.end + 11 * length numbers.now }
    {
        for &n in numbers {
            self.put_field(n);
        }
    }

    // Prints the line with its line end; as everywhere in this program, a write that fails is passed over.
    pub fn print(&mut self, rt: &impl Print)
        requires { self.old.end < N }
    {
        self.put(b"\n");
        let _ = rt.write_all(&self.bytes[..self.end]);
    }
}
