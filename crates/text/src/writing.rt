// Bytes, decimals and fields, written into bytes that are lent, each after what was written before: no function asks for more room than its text takes. And how long a decimal is,
// before it is written.
ghost use Rattle.std.specs.Prelude.{◌≡◌, [], ◌∷◌, ◌+◌, ◌≤◌, length};
ghost use Rattle.text.specs.Bytes.{line_end};
ghost use Rattle.text.specs.Decimals.{digits, decimal, field};
ghost use Rattle.text.specs.Puts.{Room, Wrote};

// Bytes that are lent to be written, and where what is written so far ends.
#[derive(Drop)]
pub struct Writer<'a> {
    pub out: &'a mut [u8],
    pub end: usize,
}

impl Writer<'_> {
    pub fn byte(&mut self, byte: u8)
        requires { Room self.old 1 }
        ensures { Wrote self.old self.new (byte ∷ []) }
    {
        self.out[self.end] = byte;
        self.end += 1;
    }

    pub fn bytes(&mut self, text: &[u8])
        requires { Room self.old (length text.now) }
        ensures { Wrote self.old self.new text.now }
    {
        let end = self.end + text.len();
        self.out[self.end..end].copy_from_slice(text);
        self.end = end;
    }

    // The digits of a number: those of its tenth, if it has more than one, then its last. The calls are at most 20 deep. (A recursion, since the last digit is found first and written last.)
    pub fn digits(&mut self, n: u64)
        requires { Room self.old (length (digits n)) }
        ensures { Wrote self.old self.new (digits n) }
    {
        if n < 10 {
            return self.byte(b'0' + n as u8);
        }
        self.digits(n / 10);
        self.byte(b'0' + (n % 10) as u8);
    }

    // Every number of 64 bits has at most 20 bytes.
    pub fn decimal(&mut self, value: i64)
        requires { Room self.old (length (decimal value)) }
        ensures text { Wrote self.old self.new (decimal value) }
        ensures short { self.new.end ≤ self.old.end + 20 }
    {
        if value < 0 {
            self.byte(b'-');
        }
        self.digits(value.unsigned_abs());
    }

    // A number, and the comma after it.
    pub fn field(&mut self, value: i64)
        requires { Room self.old (length (field value)) }
        ensures text { Wrote self.old self.new (field value) }
        ensures short { self.new.end ≤ self.old.end + 21 }
    {
        self.decimal(value);
        self.byte(b',');
    }

    #[tactic(auto, unfolding(crate::specs::Bytes::line_end))]
    pub fn line_end(&mut self)
        requires { Room self.old (length line_end) }
        ensures { Wrote self.old self.new line_end }
    {
        self.bytes(b"\r\n");
    }
}

// ---- how long a number's text is

// (No index is counted here: what is left of the number is, as it loses its last digit in each turn.)
pub fn digit_count(n: u64) -> usize
    ensures { (result ≡ length (digits n)) × (result ≤ 20) }
{
    let mut count: usize = 1;
    let mut rest = n;
    while 10 <= rest {
        rest = rest / 10;
        count += 1;
    }
    count
}

pub fn decimal_length(value: i64) -> usize
    ensures { (result ≡ length (decimal value)) × (result ≤ 20) }
{
    let count = digit_count(value.unsigned_abs());
    if value < 0 { count + 1 } else { count }
}
