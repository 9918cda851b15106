// Numbers as decimal text.
ghost use Rattle.std.specs.Prelude.{◌≡◌, ◌+◌, ◌≤◌, ◌<◌, length};
ghost use Rattle.text.specs.Decimal.{decimal};
ghost use Rattle.text.specs.Printed.{Printed};

pub fn digit(value: u32) -> u8
    requires { value < 10 }
    ensures { result ≡ 48 + value }
{
    b'0' + value as u8
}

// A number of any length: what stands before the last digit, then the last digit.
fn spell(n: u32, out: &mut [u8], at: usize) -> usize
    requires { at + length (decimal n) ≤ length out.old }
    ensures { Printed out.old at (decimal n) out.new result }
{
    if n < 10 {
        out[at] = digit(n);
        return at + 1;
    }
    let last = spell(n / 10, out, at);
    out[last] = digit(n % 10);
    last + 1
}

// The same; one, two and three digits, which nearly every person has, are written at once.
pub fn number(n: u32, out: &mut [u8], at: usize) -> usize
    requires { at + length (decimal n) ≤ length out.old }
    ensures { Printed out.old at (decimal n) out.new result }
{
    if n < 10 {
        out[at] = digit(n);
        return at + 1;
    }
    if n < 100 {
        out[at] = digit(n / 10);
        out[at + 1] = digit(n % 10);
        return at + 2;
    }
    if n < 1000 {
        out[at] = digit(n / 100);
        out[at + 1] = digit(n / 10 % 10);
        out[at + 2] = digit(n % 10);
        return at + 3;
    }
    spell(n, out, at)
}
