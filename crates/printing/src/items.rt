// Numbers by commas.
ghost use Rattle.std.specs.Prelude.{List, ℕ};
ghost use Rattle.digits.specs.Digits.{decimal};
ghost use Rattle.printing.specs.Printed.{bits_text};
ghost use Rattle.printing.specs.Items.{item_text, joined_by, Puts, Room};

use crate::{bits_of, put_text};

// A number of a line.
pub trait Item: Copy {
    // Its text.
    ghost text: { Self → List ℕ };

    fn put(self, out: &mut [u8], at: usize) -> usize
        requires { Room (text self) at out.old }
        ensures { Puts (text self) at out.old result out.new };
}

impl Item for u64 {
    ghost text = { decimal };

    fn put(self, out: &mut [u8], at: usize) -> usize {
        digits::write_decimal(self, out, at).unwrap()
    }
}

impl Item for u32 {
    ghost text = { decimal };

    fn put(self, out: &mut [u8], at: usize) -> usize {
        u64::from(self).put(out, at)
    }
}

// The hex of its bits.
impl Item for f64 {
    ghost text = { bits_text };

    fn put(self, out: &mut [u8], at: usize) -> usize {
        digits::write_hex(bits_of(self), out, at).unwrap()
    }
}

// Number i of a line, behind a comma unless it is the first.
fn put_item<T: Item>(i: usize, x: T, out: &mut [u8], at: usize) -> usize
    requires { Room (item_text i (T.text x)) at out.old }
    ensures { Puts (item_text i (T.text x)) at out.old result out.new }
{
    if i == 0 {
        return x.put(out, at);
    }
    let next = put_text(b",", out, at);
    x.put(out, next)
}

// Numbers by commas.
pub fn put_numbers<T: Item>(numbers: &[T], out: &mut [u8], at: usize) -> usize
    requires { Room (joined_by T.text numbers.now) at out.old }
    ensures { Puts (joined_by T.text numbers.now) at out.old result out.new }
{
    let mut next = at;
    for i in 0..numbers.len() {
        next = put_item(i, numbers[i], out, next);
    }
    next
}
