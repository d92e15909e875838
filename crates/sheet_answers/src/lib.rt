// The text that a sheet's bytes are answered with, in lent room.
#![tactic(auto)]

pub mod refusal_lines; // the line of a refused sheet
pub mod tap_lines; // the lines of a sheet's taps
pub mod taps; // what a tap hits on the sheet's tree: the place and its depth
pub mod text; // numbers as text, and lines of numbers

ghost use Rattle.std.specs.Prelude.{◌≡◌, ◌≤◌, length, All};
ghost use Rattle.sheet_format.specs.Lines.{items};
ghost use Rattle.sheet_calls.specs.Answers as text;
ghost use Rattle.sheet_answers.specs.text.Text.{Stored};
ghost use Rattle.sheet_answers.specs.tap_lines.Lines.{Ready};
ghost use Rattle.sheet_answers.specs.Answers as spec;

use sheet_tree::SheetTree;
use tree_state::{Refusal, check};

// The tap count, then the taps.
fn put_sheet(sheet: &SheetTree, room: &mut [u8]) -> usize
    requires ready { All (Ready sheet.now.tree) (items sheet.now.taps) }
    requires long { 16384 ≤ length room.old }
    ensures { Stored room.old room.new 0 result (spec.taps_text sheet.now) }
{
    let taps = sheet.taps.as_slice();
    let next = text::put_line(room, 0, &[taps.len()]);
    tap_lines::put_taps(&sheet.tree, taps, next, room)
}

// The text of what was read.
fn put_read(bytes: &[u8], room: &mut [u8]) -> usize
    requires { 16384 ≤ length room.old }
    ensures { Stored room.old room.new 0 result (text.output bytes.now) }
{
    match sheet_tree::read_tree(bytes) {
        Ok(sheet) => put_sheet(&sheet, room),
        Err(refused) => refusal_lines::put_refused(refused, room),
    }
}

// The text that the bytes are answered with, in front of the room: how many bytes it has. Only a room that is too short is refused.
pub fn answer_into(bytes: &[u8], room: &mut [u8]) -> Result<usize, Refusal>
    ensures answer { result ≡ spec.written_if (spec.roomy room.old) (length (text.output bytes.now)) }
    ensures room { room.new ≡ spec.room_if (spec.roomy room.old) (text.output bytes.now) room.old }
{
    check(room.len() >= 16384, Refusal::ShortRoom)?;
    let n = put_read(bytes, room);
    Ok(n)
}
