// Reads a sheet on standard input and writes what its taps hit, or why the sheet is refused.
#![tactic(auto)]

ghost use Rattle.std.specs.Prelude.{◌≤◌, length};

const STANDARD_INPUT: i32 = 0;

const STANDARD_OUTPUT: i32 = 1;

// The first n bytes of the room.
fn write_front(room: &[u8], n: usize)
    requires { n ≤ length room.now }
{
    io::write_all(STANDARD_OUTPUT, &room[..n]);
}

// One byte more than the longest sheet is read, so that a longer one is seen.
fn main() {
    let mut input = [0u8; 65_537];
    let n = io::read_full(STANDARD_INPUT, &mut input);
    let mut room = [0u8; 16_384];
    if let Ok(length) = sheet_answers::answer_into(&input[..n], &mut room) {
        write_front(&room, length);
    }
}
