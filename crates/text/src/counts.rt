// A count of any size, in decimal digits: no number of chains wraps.
ghost use Rattle.std.specs.Prelude.{◌≡◌, ◌⊎◌, ◌+◌, ◌≤◌, ◌<◌, ◌^◌, length, get_or, drop};
ghost use Rattle.text.specs.Decimal.{decimal, worth, digit_count, Digits};
ghost use Rattle.text.specs.Printed.{Printed};

use crate::numbers::digit;

// The digits of a count.
pub const DIGITS: usize = 40;

// A count in so many digits, the last digit first: each of them is a digit. The contracts name them, so that they are public.
#[derive(Clone, Copy)]
pub struct Counted {
    pub digits: [u8; DIGITS],
    pub ghost all_digits: { Digits digits },
}

impl Counted {
    // Nothing counted yet.
    pub fn nothing() -> Self
        ensures { worth result.digits ≡ 0 }
    {
        let digits = [0; DIGITS];
        Counted { digits }
    }

    // Counts so many more, digit by digit from the last one on.
    pub fn count_on(&mut self, more: usize)
        requires { worth self.old.digits + more < 10 ^ digit_count }
        ensures { worth self.new.digits ≡ worth self.old.digits + more }
    {
        let mut carry = more;
        for digit in self.digits.iter_mut() {
            let sum = *digit as usize + carry % 10;
            *digit = (sum % 10) as u8;
            carry = carry / 10 + sum / 10;
        }
    }

    // The place of the first digit that is no zero, or of the last digit.
    fn first_digit(&self) -> usize
        ensures { (result < digit_count) × (worth (drop (result + 1) self.now.digits) ≡ 0) × ((result ≡ 0) ⊎ (0 < get_or self.now.digits result 0)) }
    {
        self.digits
            .iter()
            .rposition(|&digit| digit != 0)
            .unwrap_or(0)
    }

    // The count as decimal text.
    pub fn count(&self, out: &mut [u8], at: usize) -> usize
        requires { at + digit_count ≤ length out.old }
        ensures { (Printed out.old at (decimal (worth self.now.digits)) out.new result) × (result ≤ at + digit_count) }
    {
        let first = self.first_digit();
        for (place, &value) in self.digits[..=first].iter().rev().enumerate() {
            out[at + place] = digit(value as u32);
        }
        at + first + 1
    }
}
