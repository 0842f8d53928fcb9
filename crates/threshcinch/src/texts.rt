// Run files and answers as text: what the text program reads and prints, for hosts that keep such files.
ghost use Rattle.std.specs.Prelude.{◌≡◌};
ghost use Rattle.files.specs.RunText.{test_write, run_text};
ghost use Rattle.input.specs.Said.{verdict_of, verdict_in, params_of};
ghost use Rattle.printing.specs.Answer.{test_answer, answer_text};
ghost use Rattle.printing.specs.Room.{judged_in, length_in, Leaves};
ghost use Rattle.reading.specs.ReadRun.{read_run, record_of};
ghost use Rattle.state.specs.Said.{counts_in};
ghost use Rattle.threshcinch.specs.Texts.{text_verdict, run_told};

use input::{Graph, Refusal, SpectralParams, Verdict};
use state::Counts;

// A run file as it was read: its numbers, zeros behind those of each list. Where the text is none, the verdict is 17 at the line and all else zeros.
#[repr(C)]
#[derive(Drop)]
pub struct RunRead {
    pub verdict: Verdict,
    pub d: u64,
    pub params: SpectralParams,
    pub start_count: usize,
    pub column_count: usize,
    pub value_count: usize,
    pub starts: [u64; 65],
    pub columns: [u32; 1024],
    pub values: [f64; 1024],
}

// What a writer of a whole text answers: how many bytes it wrote from the first one on, 0 with a refusal.
#[repr(C)]
#[derive(Drop)]
pub struct WrittenText {
    pub verdict: Verdict,
    pub length: usize,
}

impl From<Result<usize, Refusal>> for WrittenText {
    ghost from_gives = { λ answer written. (verdict_of written.verdict ≡ judged_in answer) × (written.length ≡ length_in answer) };

    fn from(answer: Result<usize, Refusal>) -> WrittenText {
        match answer {
            Ok(length) => WrittenText {
                verdict: Verdict::from(Ok(())),
                length,
            },
            Err(refusal) => WrittenText {
                verdict: Verdict::from(Err(refusal)),
                length: 0,
            },
        }
    }
}

// 17 at the line, or no refusal.
fn test_text(is_right: bool, line: u64) -> Result<(), Refusal>
    ensures { verdict_in result ≡ verdict_of (text_verdict is_right line) }
{
    if is_right {
        Ok(())
    } else {
        Err(Refusal::File(line))
    }
}

#[unsafe(no_mangle)]
pub extern "C" fn threshcinch_read_run(text: &[u8]) -> RunRead
    ensures { result ≡ run_told (record_of (read_run text.now)) }
{
    let file = reading::read_run(text);
    let tested = test_text(file.is_right, file.line);
    let verdict = Verdict::from(tested);
    let params = SpectralParams {
        rounds: file.rounds,
        degree: file.degree,
        seed_std: file.seed_std,
    };
    let starts = file.starts;
    let columns = file.columns;
    let values = file.values;
    RunRead {
        verdict,
        d: file.d,
        params,
        start_count: file.start_count,
        column_count: file.column_count,
        value_count: file.value_count,
        starts,
        columns,
        values,
    }
}

#[unsafe(no_mangle)]
pub extern "C" fn threshcinch_write_run(
    d: u64,
    params: SpectralParams,
    starts: &[u64],
    columns: &[u32],
    values: &[f64],
    text: &mut [u8],
) -> WrittenText
    ensures { Leaves (test_write d (params_of params) starts.now columns.now values.now text.old)
        (run_text d (params_of params) starts.now columns.now values.now) text.old (verdict_of result.verdict) result.length text.new }
{
    let graph = Graph {
        starts,
        columns,
        values,
    };
    WrittenText::from(writing::write_run(d, params, graph, text))
}

#[unsafe(no_mangle)]
pub extern "C" fn threshcinch_write_answer(
    verdict: Verdict,
    d: u64,
    rows: usize,
    counts: Counts,
    seed: &[f64],
    text: &mut [u8],
) -> WrittenText
    ensures { Leaves (test_answer (verdict_of verdict) d rows (counts_in counts) seed.now text.old)
        (answer_text (verdict_of verdict) d rows (counts_in counts) seed.now) text.old (verdict_of result.verdict) result.length text.new }
{
    WrittenText::from(printing::write_answer(verdict, d, rows, counts, seed, text))
}
