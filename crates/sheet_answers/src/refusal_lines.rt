// The line that a refused sheet is answered with, in lent room.
ghost use Rattle.std.specs.Prelude.{◌≡◌, ◌<◌, ◌≤◌, length};
ghost use Rattle.sheet_format.specs.Sheet as sheet;
ghost use Rattle.sheet_format.specs.Told.{number_of};
ghost use Rattle.sheet_calls.specs.Answers as text;
ghost use Rattle.sheet_answers.specs.text.Text.{Stored};

use crate::text;
use sheet_format::{Refusal, Refused};

// The number that stands on the line. Only the answer's text has it: a From on the reader's enum would say no more.
fn number(why: Refusal) -> usize
    ensures { result ≡ number_of why }
{
    match why {
        Refusal::TooLong => 20,
        Refusal::Malformed => 21,
        Refusal::OutOfRange => 22,
        Refusal::BadPlace => 23,
        Refusal::Trailing => 24,
    }
}

// The word, and the position behind it.
fn put_word(room: &mut [u8]) -> usize
    requires { 8 ≤ length room.old }
    ensures { Stored room.old room.new 0 result (text.bytes "refused ") }
{
    byte_search::copy(b"refused ", room)
}

// Inner: one line only, the word, the number and the line.
pub(crate) fn put_refused(refused: Refused, room: &mut [u8]) -> usize
    requires low { refused.line < 10000 }
    requires long { 16384 ≤ length room.old }
    ensures { Stored room.old room.new 0 result (text.read_text (sheet.refused (number_of refused.why) refused.line)) }
{
    let at = put_word(room);
    text::put_line(room, at, &[number(refused.why), refused.line])
}
