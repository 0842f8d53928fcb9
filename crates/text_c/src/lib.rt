// What C and the fuzzer link of text, under its C name.
#![tactic(auto)]

ghost use Rattle.std.specs.Prelude.{◌≡◌};
ghost use Rattle.text.specs.Answer.{answered_length, placed};

// The length of the answer, or 0 where there is not enough room: no answer is empty.
#[unsafe(no_mangle)]
pub extern "C" fn text_answer(bytes: &[u8], out: &mut [u8]) -> usize
    ensures { (result ≡ answered_length bytes.now out.old) × (out.new ≡ placed bytes.now out.old) }
{
    text::answer(bytes, out).unwrap_or(0)
}
