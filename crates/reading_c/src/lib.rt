// What C, Rust and the fuzzer link of reading, under its C name.
#![tactic(auto)]

ghost use Rattle.std.specs.Prelude.{◌≡◌};
ghost use Rattle.reading.specs.ReadRun.{read_run, record_of};

use reading::RunFile;

#[unsafe(no_mangle)]
pub extern "C" fn reading_read_run(bytes: &[u8]) -> RunFile
    ensures { result ≡ record_of (read_run bytes.now) }
{
    reading::read_run(bytes)
}
