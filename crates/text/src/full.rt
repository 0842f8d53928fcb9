// The text program's way in: reading until a list of bytes is full.
ghost use Rattle.std.specs.Prelude.{◌≤◌, length};

use std::io::Read;

// Reads until the list is full, the input ends or a read fails; how many bytes were put at its front. How far the
// next read begins is what the last one said.
pub fn read_full(input: &mut impl Read, bytes: &mut [u8]) -> usize
    ensures { result ≤ length bytes.new }
{
    let mut done = 0;
    while done < bytes.len() {
        let Ok(count) = input.read(&mut bytes[done..]) else {
            return done;
        };
        if count == 0 {
            return done;
        }
        done += count;
    }
    done
}
