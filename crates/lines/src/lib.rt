// Lines of a Matrix Market text: where each ends, and what it says.
#![tactic(auto)]

ghost use Rattle.std.specs.Prelude.{◌≡◌, true, false, [], ◌∷◌, ◌+◌, ◌*◌, ◌^◌, ◌≤◌, ◌<◌, length, drop, not, IsTrue, IfSome, MatchOption, SomeIff};
ghost use Rattle.std.specs.List.{list_all, take_while};
ghost use Rattle.lines.specs.Lines.{begins, holds, is_blank, goes_on, words_of};
ghost use Rattle.std.specs.Iterator.{YieldsFirst, item_count};
ghost use Rattle.lines.specs.Kinds.{kind_of, numbers_in, kinds_at};
ghost use Rattle.lines.specs.declared.Kind.TheVariants.{Other};
ghost use Rattle.lines.specs.Banner.{same_by, is_letter, are_words, is_banner};
ghost use Rattle.lines.specs.Read.{ReadsLine, ReadsBanner};
ghost use Rattle.lines.specs.Parts.{line_goes_on, line_at, end_length, Skips, FindsNumber, FailsNumber, is_small, FindsWord, FailsWord, four_tests, ReadsDigits};

// Behind the banner: nothing, a comment, two numbers, three numbers, or what no line may say.
#[derive(Clone, Copy, PartialEq, Eq, Debug)]
pub enum Kind {
    Blank,
    Comment,
    Entry(u64, u64),
    Size(u64, u64, u64),
    Other,
}

// A line, and where the next one begins.
#[derive(Drop)]
pub struct LineRead {
    pub kind: Kind,
    pub next: usize,
}

// Whether the first line is the banner, and where the second begins. A record and no Option: it stays since `read_banner` promises where the
// second line begins, of a wrong first line too.
#[derive(Drop)]
pub struct BannerRead {
    pub is_right: bool,
    pub next: usize,
}

// Digits as a number, and the place behind them.
#[derive(Drop)]
struct DigitsRead {
    value: u64,
    next: usize,
}

// No line has more bytes.
const BYTES_MOST: usize = 1024;

// ---- a line's words

#[tactic(auto, unfolding(crate::specs::Lines::is_blank))]
fn is_blank(b: u8) -> bool
    ensures { result ≡ is_blank b }
{
    b == b' ' || b == b'\t'
}

// How many blanks stand in front.
fn blanks_before(line: &[u8]) -> usize
    ensures { result ≡ length (take_while is_blank line.now) }
{
    line.iter().take_while(|b| is_blank(**b)).count()
}

// What stands behind the blanks in front: a word, or the end.
fn behind_blanks(line: &[u8]) -> &[u8]
    ensures { Skips line.now result.now }
{
    let (_, words) = line.split_at(blanks_before(line));
    words
}

// How many bytes stand before the first blank.
fn word_length(line: &[u8]) -> usize
    ensures { result ≡ length (take_while (λ b. not (is_blank b)) line.now) }
{
    line.iter().take_while(|b| !is_blank(**b)).count()
}

// The first word, and what stands behind it.
fn next_word(line: &[u8]) -> Option<(&[u8], &[u8])>
    ensures { MatchOption result (words_of line.now ≡ []) (λ r. words_of line.now ≡ r.0.now ∷ words_of r.1.now) }
{
    let words = behind_blanks(line);
    if words.is_empty() {
        return None;
    }
    Some(words.split_at(word_length(words)))
}

// One digit more behind a number, where that stays below 2^64.
fn with_digit(value: u64, digit: u64) -> Option<u64>
    ensures { SomeIff result (value * 10 + digit < 2 ^ 64) (value * 10 + digit) }
{
    value.checked_mul(10)?.checked_add(digit)
}

// The word in front as a number, and what stands behind it, in one pass. A number too large settles it: it only grows.
fn read_number(words: &[u8]) -> Option<(u64, &[u8])>
    requires { goes_on words.now ≡ true }
    ensures { MatchOption result (FailsNumber (words_of words.now)) (λ r. FindsNumber (words_of words.now) r.0 (words_of r.1.now)) }
{
    let mut value = 0;
    for i in 0..words.len() {
        let b = words[i];
        if !digits::is_digit(b) {
            if is_blank(b) {
                return Some((value, &words[i..]));
            }
            return None;
        }
        value = with_digit(value, (b - b'0') as u64)?;
    }
    Some((value, &[]))
}

// ---- what a line says

// By its numbers: none, two or three of them.
fn read_numbers(line: &[u8]) -> Option<Kind>
    ensures { MatchOption result (numbers_in line.now ≡ Other) (λ kind. kind ≡ numbers_in line.now) }
{
    let words = behind_blanks(line);
    if words.is_empty() {
        return Some(Kind::Blank);
    }
    let (row, line) = read_number(words)?;
    let words = behind_blanks(line);
    if words.is_empty() {
        return None;
    }
    let (column, line) = read_number(words)?;
    let words = behind_blanks(line);
    if words.is_empty() {
        return Some(Kind::Entry(row, column));
    }
    let (entries, line) = read_number(words)?;
    let words = behind_blanks(line);
    if !words.is_empty() {
        return None;
    }
    Some(Kind::Size(row, column, entries))
}

fn begins_comment(line: &[u8]) -> bool
    ensures { result ≡ begins 37 line.now }
{
    line.starts_with(b"%")
}

fn holds_return(line: &[u8]) -> bool
    ensures { result ≡ holds 13 line.now }
{
    line.contains(&b'\r')
}

fn kind_of(line: &[u8]) -> Kind
    ensures { result ≡ kind_of line.now }
{
    if BYTES_MOST < line.len() {
        return Kind::Other;
    }
    if !begins_comment(line) {
        return read_numbers(line).unwrap_or(Kind::Other);
    }
    if holds_return(line) {
        return Kind::Other;
    }
    Kind::Comment
}

// ---- where a line ends

// Whether the line goes on at i: the text does, and neither a newline stands there, nor a carriage return and a newline. Most bytes are above both.
fn line_goes_on(text: &[u8], i: usize) -> bool
    ensures { result ≡ line_goes_on (drop i text.now) }
{
    if text.len() <= i {
        return false;
    }
    if b'\r' < text[i] {
        return true;
    }
    match text[i] {
        b'\n' => false,
        b'\r' => text.len() <= i + 1 || text[i + 1] != b'\n',
        _ => true,
    }
}

// The place behind the last byte of the line that begins at `at`.
fn line_end(text: &[u8], at: usize) -> usize
    requires { at ≤ length text.now }
    ensures { result ≡ at + length (line_at text.now at) }
{
    for i in at..text.len() {
        if !line_goes_on(text, i) {
            return i;
        }
    }
    text.len()
}

// The place behind what ends the line.
fn next_line(text: &[u8], end: usize) -> usize
    requires { (end ≤ length text.now) × (line_goes_on (drop end text.now) ≡ false) }
    ensures { result ≡ end + end_length (drop end text.now) }
{
    match text.get(end) {
        None => end,
        Some(b'\n') => end + 1,
        Some(_) => end + 2,
    }
}

// ---- a line

// A line that may say anything. Its end is found first, and then its bytes are gone over again.
fn read_any_line(text: &[u8], at: usize) -> LineRead
    requires { at < length text.now }
    ensures { ReadsLine text.now at result }
{
    let end = line_end(text, at);
    let kind = kind_of(&text[at..end]);
    let next = next_line(text, end);
    LineRead { kind, next }
}

// The digits from `from` on, at most 18 of them behind leading zeros, so that nothing overflows: a line with more is no plain one.
fn read_digits(text: &[u8], from: usize) -> DigitsRead
    requires { from ≤ length text.now }
    ensures { ReadsDigits text.now from result.value result.next }
{
    let mut value: u64 = 0;
    for i in from..text.len() {
        let b = text[i];
        if !digits::is_digit(b) || 100000000000000000 <= value {
            return DigitsRead { value, next: i };
        }
        value = value * 10 + (b - b'0') as u64;
    }
    DigitsRead {
        value,
        next: text.len(),
    }
}

// A line with just two numbers and one blank between them; or nothing. Most lines of a file are such plain ones, so these are gone over once.
fn read_plain(text: &[u8], at: usize) -> Option<LineRead>
    requires { at < length text.now }
    ensures { IfSome result (ReadsLine text.now at) }
{
    let first = read_digits(text, at);
    let blank = first.next;
    if blank == at {
        return None;
    }
    if text.len() <= blank {
        return None;
    }
    if !is_blank(text[blank]) {
        return None;
    }
    let from = blank + 1;
    let second = read_digits(text, from);
    let end = second.next;
    if end == from {
        return None;
    }
    if BYTES_MOST < end - at {
        return None;
    }
    if line_goes_on(text, end) {
        return None;
    }
    let kind = Kind::Entry(first.value, second.value);
    let next = next_line(text, end);
    Some(LineRead { kind, next })
}

// The line that begins at `at`.
pub fn read_line(text: &[u8], at: usize) -> LineRead
    requires { at < length text.now }
    ensures { ReadsLine text.now at result }
{
    match read_plain(text, at) {
        Some(line) => line,
        None => read_any_line(text, at),
    }
}

// What the lines of a text say, one by one. The loops that give a line's place back, or count lines, go from place to place by `read_line`: the
// place tells that their count of lines has room, which no item of this iterator tells.
#[derive(Drop)]
pub struct Lines<'a>(pub &'a [u8]);

impl<'a> Iterator for Lines<'a> {
    type Item = Kind;

    ghost next_gives = { YieldsFirst (λ s. kinds_at s.0.now 0) };

    ghost remaining = { item_count (λ s. kinds_at s.0.now 0) };

    fn next(&mut self) -> Option<Kind> {
        if self.0.is_empty() {
            return None;
        }
        let line = read_line(self.0, 0);
        self.0 = &self.0[line.next..];
        Some(line.kind)
    }
}

// ---- the banner

// What stands behind the first word, if that is this word of small letters, "in either case".
fn behind_word<'a>(line: &'a [u8], small: &[u8]) -> Option<&'a [u8]>
    requires { IsTrue (list_all is_small small.now) }
    ensures { MatchOption result (FailsWord (same_by is_letter small.now) (words_of line.now))
        (λ rest. FindsWord (same_by is_letter small.now) (words_of line.now) (words_of rest.now)) }
{
    let (word, rest) = next_word(line)?;
    if !word.eq_ignore_ascii_case(small) {
        return None;
    }
    Some(rest)
}

// What stands behind the four words that follow on the banner's first.
fn behind_words(line: &[u8]) -> Option<&[u8]>
    ensures { MatchOption result (are_words four_tests (words_of line.now) ≡ false)
        (λ rest. are_words four_tests (words_of line.now) ≡ are_words [] (words_of rest.now)) }
{
    let line = behind_word(line, b"matrix")?;
    let line = behind_word(line, b"coordinate")?;
    let line = behind_word(line, b"pattern")?;
    behind_word(line, b"symmetric")
}

// The four words behind the first, and nothing behind them.
fn are_words(line: &[u8]) -> bool
    ensures { result ≡ are_words four_tests (words_of line.now) }
{
    let Some(rest) = behind_words(line) else {
        return false;
    };
    next_word(rest).is_none()
}

fn is_banner(line: &[u8]) -> bool
    ensures { result ≡ is_banner line.now }
{
    if BYTES_MOST < line.len() {
        return false;
    }
    let (first, rest) = line.split_at(word_length(line));
    if first != b"%%MatrixMarket".as_slice() {
        return false;
    }
    are_words(rest)
}

// The first line.
pub fn read_banner(text: &[u8]) -> BannerRead
    ensures { ReadsBanner text.now result }
{
    let end = line_end(text, 0);
    let is_right = is_banner(&text[..end]);
    let next = next_line(text, end);
    BannerRead { is_right, next }
}
