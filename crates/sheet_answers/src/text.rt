// The text of a sheet's answer, written into lent room: numbers in decimal, one space between, LF after each line. No heap: not a String of the
// lines, and the room is the caller's, so that the position in it is handed on.
ghost use Rattle.std.specs.Prelude.{◌+◌, ◌*◌, ◌<◌, ◌≤◌, length, All, ℕ};
ghost use Rattle.sheet_calls.specs.Answers as answer;
ghost use Rattle.sheet_answers.specs.text.Text as spec;

// A number below 10,000.
fn put_number(room: &mut [u8], at: usize, n: usize) -> usize
    requires { (n < 10000) × (at + 4 ≤ length room.old) }
    ensures { spec.Stored room.old room.new at result (answer.decimal n) }
{
    let mut digits = [0u8; 20];
    let k = io::decimal(n as u64, &mut digits);
    at + byte_search::copy(&digits[..k], &mut room[at..])
}

// A number below 10,000, and a byte behind it.
fn put_marked(room: &mut [u8], at: usize, n: usize, mark: u8) -> usize
    requires { (n < 10000) × (at + 5 ≤ length room.old) }
    ensures { spec.Stored room.old room.new at result (spec.marked n mark) }
{
    let next = put_number(room, at, n);
    room[next] = mark;
    next + 1
}

// Inner: a line of one number or more.
pub(crate) fn put_line<const N: usize>(room: &mut [u8], at: usize, numbers: &[usize; N]) -> usize
    requires some { 0 < N }
    requires small { All (λ (n : ℕ). n < 10000) numbers.now }
    requires long { at + 5 * N ≤ length room.old }
    ensures { spec.Stored room.old room.new at result (answer.line_of numbers.now) }
{
    let last = N - 1;
    let mut next = at;
    for i in 0..last {
        next = put_marked(room, next, numbers[i], b' ');
    }
    put_marked(room, next, numbers[last], b'\n')
}
