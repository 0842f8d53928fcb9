// Stored run files and answers, written again.
use crate::lent::{self, Due};
use crate::stored::Said;
use crate::tally::{Kind, Tally};
use input::{Graph, SpectralParams, Verdict};
use reading::RunFile;

// ---- run files

// What the first writer is asked.
#[derive(Clone, Copy)]
pub struct Request<'a> {
    pub d: u64,
    pub params: SpectralParams,
    pub graph: Graph<'a>,
}

// The first numbers of a list, and the whole of it where it has no more.
pub fn front<T>(list: &[T], count: usize) -> &[T] {
    list.get(..count).unwrap_or(list)
}

impl<'a> From<&'a RunFile> for Request<'a> {
    fn from(file: &'a RunFile) -> Self {
        Request {
            d: file.d,
            params: SpectralParams {
                rounds: file.rounds,
                degree: file.degree,
                seed_std: file.seed_std,
            },
            graph: Graph {
                starts: front(&file.starts, file.start_count),
                columns: front(&file.columns, file.column_count),
                values: front(&file.values, file.value_count),
            },
        }
    }
}

impl Request<'_> {
    // Tries the first writer with so many bytes.
    pub fn try_written(self, due: Due, room: usize, kind: Kind, t: &mut Tally) {
        let Request { d, params, graph } = self;
        let write = |out: &mut [u8]| writing::write_run(d, params, graph, out);
        t.note(kind, lent::is_right(write, due, room));
    }
}

// A stored run file with the verdict that its answer has. Where it can't be read there is nothing to write.
pub fn file_again(run: &[u8], verdict: Verdict, t: &mut Tally) {
    let file = reading::read_run(run);
    if !file.is_right {
        return;
    }
    let (due, texts, rooms) = if verdict.number == 0 {
        (Ok(run), Kind::Files, Kind::FilesRooms)
    } else {
        (Err(verdict), Kind::FilesRefused, Kind::FilesRefused)
    };
    let asked = Request::from(&file);
    asked.try_written(due, lent::ROOM, texts, t);
    asked.try_written(due, run.len(), rooms, t);
    asked.try_written(due, run.len().saturating_sub(1), rooms, t);
}

// ---- answers

// Tries the second writer with so many bytes.
pub fn try_printed(said: &Said, due: Due, room: usize, kind: Kind, t: &mut Tally) {
    let write = |out: &mut [u8]| {
        printing::write_answer(said.verdict, said.d, said.n, said.counts, said.seed(), out)
    };
    t.note(kind, lent::is_right(write, due, room));
}

// What is said must be the answer again. With room to spare the seed has numbers behind its own.
pub fn answer_again(said: &Said, answer: &[u8], t: &mut Tally) {
    let due = Ok(answer);
    let rooms = Kind::AnswersRooms;
    try_printed(&said.longer(), due, lent::ROOM, Kind::Answers, t);
    try_printed(said, due, answer.len(), rooms, t);
    try_printed(said, due, answer.len().saturating_sub(1), rooms, t);
}
