// The lines of a sheet's taps, in lent room.
ghost use Rattle.std.specs.Prelude.{◌+◌, ◌≤◌, length, All};
ghost use Rattle.sheet_format.specs.Sheet.{most_taps};
ghost use Rattle.sheet_answers.specs.text.Text.{Stored};
ghost use Rattle.sheet_answers.specs.tap_lines.Lines as spec;

use crate::{taps, text};
use sheet_format::TapLine;
use tree_state::Tree;

// Inner: the taps' lines: a tap's number, the place hit and its depth.
pub(crate) fn put_taps(tree: &Tree, lines: &[TapLine], at: usize, room: &mut [u8]) -> usize
    requires few { length lines.now ≤ most_taps }
    requires ready { All (spec.Ready tree.now) lines.now }
    requires long { at + 15000 ≤ length room.old }
    ensures { Stored room.old room.new at result (spec.tap_text tree.now 1 lines.now) }
{
    let mut next = at;
    for i in 0..lines.len() {
        let tap = lines[i];
        let hit = taps::tapped(tree, tap);
        next = text::put_line(room, next, &[i + 1, hit.place, hit.depth]);
    }
    next
}
