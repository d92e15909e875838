// Lines of whole numbers, as the plan sheet has them.
#![tactic(auto)]

ghost use Rattle.std.specs.Prelude.{◌≡◌, ◌≤◌, drop, IfSome};
ghost use Rattle.sheet_lines.specs.Lines as spec;
ghost use Rattle.sheet_lines.specs.Saturated.{saturated_decimal, saturated_numbers, first_fields, told_digits, told_word, told_row, told_line};

// The most numbers that a line has.
pub const LINE_WIDTH: usize = 11;

// A number beyond this, 10^15, counts as this, and so below its negative.
const MOST: u64 = 1_000_000_000_000_000;

// A line's numbers, in the first places of `row`, if it is one; and, whether or not it is, the position behind its LF, or where there is no LF
// the position that was asked.
// How many numbers a line has is known only when it is read, and its memory is fixed: so the row has a place for each that a line may have.
#[derive(Clone, Copy)]
pub struct LineRow {
    pub row: Option<[i64; LINE_WIDTH]>,
    pub next: usize,
}

// What digits spell, none or more.
fn spelt(digits: &[u8]) -> Option<u64>
    ensures capped { IfSome result (λ n. n ≤ 1000000000000000) }
    ensures value { told_digits result ≡ saturated_decimal (spec.digits_after 0 digits.now) }
{
    let mut n = 0;
    for b in digits {
        if !b.is_ascii_digit() {
            return None;
        }
        n = u64::min(n * 10 + u64::from(*b - b'0'), MOST);
    }
    Some(n)
}

// What digits spell, the first of them not 0.
fn positive(digits: &[u8]) -> Option<u64>
    ensures capped { IfSome result (λ n. n ≤ 1000000000000000) }
    ensures value { told_digits result ≡ saturated_decimal (spec.positive digits.now) }
{
    let [first, ..] = digits else {
        return None;
    };
    if *first == b'0' {
        return None;
    }
    spelt(digits)
}

// A word's number: `0`, or digits, the first of them not 0, with or without `-` before them.
fn number_of(word: &[u8]) -> Option<i64>
    ensures { told_word result ≡ saturated_decimal (spec.decimal word.now) }
{
    let [first, rest @ ..] = word else {
        return None;
    };
    if *first == b'-' {
        let n = positive(rest)?;
        return Some(-(n as i64));
    }
    if *first == b'0' {
        return rest.is_empty().then_some(0);
    }
    let n = positive(word)?;
    Some(n as i64)
}

// The numbers of a line of `width` words.
fn row_of(line: &[u8], width: usize) -> Option<[i64; LINE_WIDTH]>
    requires { width ≤ spec.line_width }
    ensures { told_row width result ≡ saturated_numbers (spec.fields width line.now) }
{
    let mut row = [0; LINE_WIDTH];
    let mut at = 0;
    for j in 0..width {
        if at > line.len() {
            return None;
        }
        let end = byte_search::find(line, at, line.len(), b' ');
        row[j] = number_of(&line[at..end])?;
        at = end + 1;
    }
    if at <= line.len() {
        return None;
    }
    Some(row)
}

// The line of `width` numbers that begins at `at`, and the position behind its LF. A line has its LF, and at most LINE_WIDTH numbers.
pub fn fields_at(s: &[u8], at: usize, width: usize) -> LineRow
    ensures row { told_line width s.now result ≡ first_fields width (drop at s.now) }
    ensures next { result.next ≡ spec.behind at (spec.cut (drop at s.now)) }
{
    if at > s.len() {
        return LineRow {
            row: None,
            next: at,
        };
    }
    let end = byte_search::find(s, at, s.len(), b'\n');
    if end >= s.len() {
        return LineRow {
            row: None,
            next: at,
        };
    }
    let next = end + 1;
    if width > LINE_WIDTH {
        return LineRow { row: None, next };
    }
    let row = row_of(&s[at..end], width);
    LineRow { row, next }
}
