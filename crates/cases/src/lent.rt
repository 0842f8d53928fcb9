// The memory that is lent to a writer, and whether the writer answered and left what it must.
use input::{Refusal, Verdict};
use std::array;

// More than any text needs.
pub const ROOM: usize = 33000;

// Number 0 is no refusal.
pub const ACCEPTED: Verdict = Verdict {
    number: 0,
    place: 0,
};

// Too few bytes are lent.
const NO_ROOM: Verdict = Verdict {
    number: 18,
    place: 0,
};

// What must come of a writer: the whole text, or the refusal of what it is asked.
pub type Due<'a> = Result<&'a [u8], Verdict>;

// What stands at a place before a call: no byte that a text has.
fn blank(i: usize) -> u8 {
    128 + (i % 127) as u8
}

// Whether the text stands at the front of the memory, and every byte behind it is as it was.
fn stands(text: &[u8], memory: &[u8]) -> bool {
    memory.starts_with(text)
        && memory
            .iter()
            .enumerate()
            .skip(text.len())
            .all(|(i, b)| *b == blank(i))
}

// Lends a writer so many bytes, and all there are where that is less. Whether it wrote the whole text, or refused what it is asked, or
// answered 18 as the room is shorter than the text; a writer that refuses must write nothing.
pub fn is_right<F: FnOnce(&mut [u8]) -> Result<usize, Refusal>>(
    write: F,
    due: Due,
    room: usize,
) -> bool
    requires { F.IsAlwaysCallable write }
{
    let mut memory: [u8; ROOM] = array::from_fn(blank);
    let room = room.min(ROOM);
    let written = write(&mut memory[..room]);
    let (verdict, text) = match due {
        Ok(text) if text.len() <= room => (ACCEPTED, text),
        Ok(_) => (NO_ROOM, &[][..]),
        Err(refusal) => (refusal, &[][..]),
    };
    Verdict::from(written.map(|_| ())) == verdict
        && written.unwrap_or(0) == text.len()
        && stands(text, &memory)
}
