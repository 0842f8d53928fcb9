// What is counted: of each kind how many were tried, and how many of them were right.
use std::fmt;

// What is tried. A writer is asked for texts, with room to spare; what it must refuse; texts with just enough room, or one byte less.
#[derive(Clone, Copy)]
pub enum Kind {
    Promised, // run files that are run
    Beyond,
    Files, // the writer of run files
    FilesRefused,
    FilesRooms,
    Answers, // the writer of answers
    AnswersRefused,
    AnswersRooms,
}

#[derive(Clone, Copy, Default)]
struct Count {
    tried: u64,
    right: u64,
}

// What a writer was asked.
#[derive(Clone, Copy, Default)]
struct Written {
    texts: Count,
    refused: Count,
    rooms: Count,
}

#[derive(Clone, Copy, Default)]
pub struct Tally {
    promised: Count,
    beyond: Count,
    files: Written,
    answers: Written,
}

impl Tally {
    fn count_of(&mut self, kind: Kind) -> &mut Count {
        match kind {
            Kind::Promised => &mut self.promised,
            Kind::Beyond => &mut self.beyond,
            Kind::Files => &mut self.files.texts,
            Kind::FilesRefused => &mut self.files.refused,
            Kind::FilesRooms => &mut self.files.rooms,
            Kind::Answers => &mut self.answers.texts,
            Kind::AnswersRefused => &mut self.answers.refused,
            Kind::AnswersRooms => &mut self.answers.rooms,
        }
    }

    pub fn note(&mut self, kind: Kind, is_right: bool) {
        let count = self.count_of(kind);
        count.tried = count.tried.saturating_add(1);
        count.right = count.right.saturating_add(u64::from(is_right));
    }
}

// ---- printing

impl fmt::Display for Written {
    fn fmt<W: fmt::Write>(&self, f: &mut fmt::Formatter<W>) -> fmt::Result {
        let Written {
            texts,
            refused,
            rooms,
        } = *self;
        write!(f, "{} same={}", texts.tried, texts.right)?;
        write!(f, " refused={} right={}", refused.tried, refused.right)?;
        write!(f, " rooms={} right={}", rooms.tried, rooms.right)
    }
}

impl fmt::Display for Tally {
    fn fmt<W: fmt::Write>(&self, f: &mut fmt::Formatter<W>) -> fmt::Result {
        let Tally {
            promised,
            beyond,
            ..
        } = *self;
        write!(f, "promised={} same={}", promised.tried, promised.right)?;
        writeln!(f, " beyond={} same={}", beyond.tried, beyond.right)?;
        writeln!(f, "written={}", self.files)?;
        write!(f, "printed={}", self.answers)
    }
}
