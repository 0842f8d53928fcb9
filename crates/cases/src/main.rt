// Replays stored run files through `text::answer` and compares what it answers with the stored answer, byte for byte. Every run file that
// is accepted and every answer is written again by its writer, and must be its own bytes; then both writers are tried with what they must refuse.
//
// Standard input, for each case: a line `K RRRRR AAAAA` (the kind, and the lengths of the run file and of the answer, five digits each), the run
// file, the answer. Kinds: `p`, promised to be equal; `b`, beyond what is promised, counted only; `w`, not run: both are written again only.
// It ends where the input ends, or at a head that asks for more than there is; after 4,096 cases at the latest.
#![tactic(auto)]

ghost use Rattle.std.specs.Prelude.{◌≡◌, length};

use std::io;
use stored::Said;
use tally::{Kind, Tally};

mod again; // again.rt: run files and answers written again
mod lent; // lent.rt: the memory that a writer is lent, and what it must leave
mod refusals; // refusals.rt: what the writers must refuse
mod stored; // stored.rt: what a stored answer says
mod tally; // tally.rt: how many were tried, and how many were right

const CASES_MOST: usize = 4096;

// ---- the cases

#[derive(Clone, Copy)]
struct Case<'a> {
    kind: Option<Kind>, // none where it is not run
    run: &'a [u8],
    answer: &'a [u8],
}

fn kind_of(byte: u8) -> Option<Kind> {
    match byte {
        b'p' => Some(Kind::Promised),
        b'b' => Some(Kind::Beyond),
        _ => None,
    }
}

// The number of five digits. Another byte counts as 0.
fn number_of(digits: &[u8]) -> usize {
    digits.iter().fold(0usize, |number, b| {
        let digit = char::from(*b).to_digit(10).unwrap_or(0);
        number.saturating_mul(10).saturating_add(digit as usize)
    })
}

// The cases that are left of the input.
#[derive(Drop)]
struct Cases<'a>(&'a [u8]);

impl<'a> Iterator for Cases<'a> {
    type Item = Case<'a>;

    fn next(&mut self) -> Option<Case<'a>> {
        let (head, rest) = self.0.split_first_chunk::<14>()?;
        let (run, rest) = rest.split_at_checked(number_of(&head[2..7]))?;
        let (answer, rest) = rest.split_at_checked(number_of(&head[8..13]))?;
        self.0 = rest;
        Some(Case {
            kind: kind_of(head[0]),
            run,
            answer,
        })
    }
}

// ---- trying one

// Whether the run file has the stored answer.
fn is_answered(run: &[u8], stored: &[u8]) -> bool {
    let mut out = [0u8; text::ROOM];
    let Some(end) = text::answer(run, &mut out) else {
        return false;
    };
    out.get(..end).is_some_and(|answer| answer == stored)
}

fn try_case(case: &Case, t: &mut Tally) {
    if let Some(kind) = case.kind {
        t.note(kind, is_answered(case.run, case.answer));
    }
    let said = Said::read(case.answer);
    again::file_again(case.run, said.verdict, t);
    again::answer_again(&said, case.answer, t);
}

// Room for all of the input: fixed memory, as the project has no heap. The `ensures` gives only the length, so that no proof counts so many zeros.
fn room() -> [u8; 2100000]
    ensures { 2100000 ≡ length result }
{
    [0; 2100000]
}

fn main(rt: HostRuntime) -> io::Result<()> {
    let mut all = room();
    let count = text::read_full(&mut rt.stdin(), &mut all);
    let mut tally = Tally::default();
    for case in Cases(&all[..count]).take(CASES_MOST) {
        try_case(&case, &mut tally);
    }
    refusals::of_files(&mut tally);
    refusals::of_answers(&mut tally);
    println!(rt; "{tally}")
}
