// The text program: a run file on standard input, the seed with its counts on standard output, or a refusal. What it writes for the bytes that
// it read is `text::answer`'s contract; no contract can say what the system reads or writes, so this file is only the way in and out.
#![tactic(auto)]

use std::io;
use std::io::Read;

// Whether the input has ended, so that what was read before is all of it: a read brings nothing, and doesn't fail.
fn is_at_end(input: &mut impl Read) -> io::Result<bool> {
    let mut more = [0u8; 1];
    let got = input.read(&mut more)?;
    Ok(got == 0)
}

// Writes the answer, or says that it could not.
fn write_answer(rt: &(impl Print + Eprint), out: &[u8]) -> io::Result<()> {
    if let Err(error) = rt.write_all(out) {
        eprintln!(rt; "seedrun: standard output: {error}")?;
    }
    Ok(())
}

fn answer(rt: &(impl Print + Eprint), bytes: &[u8]) -> io::Result<()> {
    let mut out = [0u8; 8192];
    if let Some(end) = text::answer(bytes, &mut out)
        && end <= 8192
    {
        write_answer(rt, &out[..end])?;
    }
    Ok(())
}

// Of a longer input, one byte more than a run file may have is enough.
fn main(rt: HostRuntime) -> io::Result<()> {
    let mut input = rt.stdin();
    let mut buf = [0u8; 32769];
    let count = text::read_full(&mut input, &mut buf);
    if count < 32769 {
        match is_at_end(&mut input) {
            Ok(true) => {}
            Ok(false) => return eprintln!(rt; "seedrun: standard input"),
            Err(error) => return eprintln!(rt; "seedrun: standard input: {error}"),
        }
    }
    answer(&rt, &buf[..count])
}
