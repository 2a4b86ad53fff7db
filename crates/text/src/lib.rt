// Words and numbers put as bytes into a lent buffer, one after the other.
#![tactic(auto)]

ghost use Rattle.std.specs.Prelude.{◌≡◌, ◌+◌, ◌≤◌, length, take};
ghost use Rattle.std.proofs.lemmas.List.Edits.{sets};
ghost use Rattle.text.specs.Text.{width, digits, decimal, HasRoom, Puts};

// A lent buffer, and the place in it where the next byte goes.
#[derive(Drop)]
pub struct Sink<'a> {
    pub out: &'a mut [u8],
    pub at: usize,
}

// How many digits a number has.
fn digits_of(n: u64) -> usize
    ensures { result ≡ width n }
{
    let mut k = 1;
    let mut rest = n / 10;
    while 0 < rest {
        rest /= 10;
        k += 1;
    }
    k
}

// Puts the last k digits of a number, from the last to the first.
fn put_digits(out: &mut [u8], at: usize, n: u64, k: usize)
    requires { at + k ≤ length out.old }
    ensures { out.new ≡ sets out.old at (digits k n) }
{
    let mut left = k;
    let mut rest = n;
    while 0 < left {
        left -= 1;
        out[at + left] = 48 + (rest % 10) as u8;
        rest /= 10;
    }
}

impl<'a> Sink<'a> {
    // Over a buffer into which nothing is put yet.
    pub fn new(out: &'a mut [u8]) -> Sink<'a>
        ensures same { result.out.ghost_name ≡ out.entry.ghost_name }
        ensures bytes { result.out.now ≡ out.old }
        ensures place { result.at ≡ 0 }
    {
        Sink { out, at: 0 }
    }

    // What is put, from the buffer's start on.
    pub fn text(&self) -> &[u8]
        requires { self.now.at ≤ length self.now.out.now }
        ensures { result.now ≡ take self.now.at self.now.out.now }
    {
        &self.out[..self.at]
    }

    // Puts a text.
    pub fn put_text(&mut self, text: &[u8])
        requires { HasRoom self.old (length text.now) }
        ensures { Puts self.old self.new text.now }
    {
        let at = self.at;
        let end = at + text.len();
        let out = &mut *self.out;
        out[at..end].copy_from_slice(text);
        self.at = end;
    }

    // Puts a number in decimal.
    pub fn put_decimal(&mut self, n: u64)
        requires { HasRoom self.old (length (decimal n)) }
        ensures { Puts self.old self.new (decimal n) }
    {
        let k = digits_of(n);
        put_digits(self.out, self.at, n, k);
        self.at += k;
    }
}
