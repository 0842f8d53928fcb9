// Into text that a host lends: a whole text, or a refusal and nothing.
ghost use Rattle.printing.specs.Room.{test_room, judged_in, length_in, Leaves};

use crate::put_text;
use input::Refusal;

// A text into lent bytes, from the first one on, and its length; 18 where they are too few.
pub fn deliver(text: &[u8], out: &mut [u8]) -> Result<usize, Refusal>
    ensures { Leaves (test_room text.now out.old) text.now out.old (judged_in result) (length_in result) out.new }
{
    if out.len() < text.len() {
        return Err(Refusal::Room);
    }
    Ok(put_text(text, out, 0))
}
