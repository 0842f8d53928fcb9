// The marks: a byte for each chunk, 1 once it is done in this stage.
ghost use Rattle.std.specs.Prelude.{◌≡◌, ◌≤◌, ◌<◌, length, set};
ghost use Rattle.definition.specs.Memory.{fill_range};
ghost use Rattle.definition.specs.Refusals.{first_from};
ghost use Rattle.definition.specs.Marks.{undone, sound};

// Chunk h is done.
pub fn set_mark(marks: &mut [u8], h: usize)
    requires { h < length marks.old }
    ensures { marks.new ≡ set marks.old h 1 }
{
    marks[h] = 1;
}

// No chunk of c is done.
pub fn clear_marks(marks: &mut [u8], c: usize)
    requires { c ≤ length marks.old }
    ensures { marks.new ≡ fill_range 0 c (λ h. 0) marks.old }
{
    marks[..c].fill(0);
}

// The lowest of c chunks that is not done, or c.
pub fn first_undone(marks: &[u8], c: usize) -> usize
    requires { c ≤ length marks.now }
    ensures { result ≡ first_from (undone marks.now) 0 c }
{
    marks[..c].iter().position(|mark| *mark == 0).unwrap_or(c)
}

// Whether each of the first c marks is 0 or 1.
pub fn marks_sound(marks: &[u8], c: usize) -> bool
    requires { c ≤ length marks.now }
    ensures { result ≡ sound marks.now c }
{
    marks[..c].iter().all(|mark| *mark <= 1)
}
