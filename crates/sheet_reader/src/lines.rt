// A line of a section: its numbers, which of them are in range (refusal 22), and which fit the lines before it (refusal 23).
ghost use Rattle.std.specs.Prelude.{◌≡◌, ℕ, ◌≤◌, ◌&&◌, List, ℤ, map, length, take};
ghost use Rattle.sheet_lines.specs.Lines.{line_width};
ghost use Rattle.sheet_format.specs.Sheet as spec;
ghost use Rattle.sheet_format.specs.Told.{place_numbers, clip_numbers, tap_numbers};
ghost use Rattle.sheet_reader.specs.Blind.{Blind};
ghost use Rattle.std.proofs.Common.{refl, rules};
ghost use Rattle.sheet_reader.specs.Ranges.{place_blind, clip_blind, tap_blind};

use sheet_format::{CLIP_WIDTH, ClipLine, PLACE_WIDTH, PlaceLine, TAP_WIDTH, TapLine};
use sheet_lines::LINE_WIDTH;

pub trait SheetLine: Copy + Default + Drop {
    ghost WIDTH: { ℕ };

    ghost numbers: { Self → List ℤ };

    // On a sheet of so many places.
    ghost rule: { ℕ → spec.Rule };

    // How many numbers stand on the line.
    const WIDTH: usize;

    // The line whose numbers stand in the first places of a row.
    fn of_row(row: &[i64; LINE_WIDTH]) -> Self
        ensures { numbers result ≡ take WIDTH row.now };

    // Whether its numbers are in range.
    fn is_in_range(&self) -> bool
        ensures { (places : ℕ) → result ≡ (rule places).in_range (numbers self.now) };

    // Whether it fits the lines of its section before it, on a sheet of so many places.
    // How many places there are at most stands here and in two contracts of sections: a type for such a count would be made and opened in each, no plainer.
    fn fits(&self, before: &[Self], places: usize) -> bool
        requires before { length before.now ≤ spec.most_lines }
        requires places { places ≤ spec.most_lines }
        ensures { result ≡ (rule places).fitting (map numbers before.now) (numbers self.now) };

    ghost narrow: { WIDTH ≤ line_width };

    ghost wide: { (places : ℕ) → (rule places).width ≡ WIDTH };

    // A number that is cut off at 10^15 is judged as the number itself.
    ghost blind: { (places : ℕ) (before : List (List ℤ)) → places ≤ spec.most_lines → length before ≤ spec.most_lines → Blind (rule places) before };
}

// Inner: whether a number lies from `low` to `high`.
pub(crate) fn within(low: i64, high: i64, z: i64) -> bool
    ensures { result ≡ spec.within low high z }
{
    (low..=high).contains(&z)
}

fn coordinate(z: i64) -> bool
    ensures { result ≡ spec.coordinate z }
{
    within(-1_000_000, 1_000_000, z)
}

// Two corners. The four numbers stand side by side on a line, and the lines' records have them so: a record of them would be no plainer here.
fn corners(x0: i64, y0: i64, x1: i64, y1: i64) -> bool
    ensures { result ≡ (spec.coordinate x0 && spec.coordinate y0 && spec.coordinate x1 && spec.coordinate y1) }
{
    coordinate(x0) & coordinate(y0) & coordinate(x1) & coordinate(y1)
}

impl SheetLine for PlaceLine {
    ghost WIDTH = { spec.place_width };

    ghost numbers = { place_numbers };

    ghost rule = { λ places. spec.place_rule };

    const WIDTH: usize = PLACE_WIDTH;

    fn of_row(row: &[i64; LINE_WIDTH]) -> PlaceLine {
        PlaceLine {
            parent: row[0],
            orientation: row[1],
            x: row[2],
            y: row[3],
            x0: row[4],
            y0: row[5],
            x1: row[6],
            y1: row[7],
            slop: row[8],
            level: row[9],
            flags: row[10],
        }
    }

    #[tactic(auto, unfolding(sheet_format::specs::Sheet::place_in_range, sheet_format::specs::Sheet::place_of))]
    fn is_in_range(&self) -> bool {
        let place = *self;
        within(0, 7, place.orientation)
            & (coordinate(place.x) & coordinate(place.y))
            & corners(place.x0, place.y0, place.x1, place.y1)
            & within(0, 1000, place.slop)
            & within(-2_147_483_648, 2_147_483_647, place.level)
            & within(0, 7, place.flags)
    }

    // Its parent is none or an earlier place.
    #[tactic(auto, unfolding(sheet_format::specs::Sheet::parent_earlier, sheet_format::specs::Sheet::place_of))]
    fn fits(&self, before: &[PlaceLine], _places: usize) -> bool {
        within(0, before.len() as i64, self.parent)
    }

    ghost narrow = { Prim.search rules };

    ghost wide = { λ places. refl };

    ghost blind = { λ places before p b. place_blind before b };
}

// Whether one of these clips has the place.
fn is_clipped(clips: &[ClipLine], place: i64) -> bool
    ensures { result ≡ spec.clipped_before (map clip_numbers clips.now) place }
{
    clips.iter().any(|clip| clip.place == place)
}

impl SheetLine for ClipLine {
    ghost WIDTH = { spec.clip_width };

    ghost numbers = { clip_numbers };

    ghost rule = { spec.clip_rule };

    const WIDTH: usize = CLIP_WIDTH;

    fn of_row(row: &[i64; LINE_WIDTH]) -> ClipLine {
        ClipLine {
            place: row[0],
            x0: row[1],
            y0: row[2],
            x1: row[3],
            y1: row[4],
            radius: row[5],
        }
    }

    #[tactic(auto, unfolding(sheet_format::specs::Sheet::clip_in_range, sheet_format::specs::Sheet::clip_of))]
    fn is_in_range(&self) -> bool {
        corners(self.x0, self.y0, self.x1, self.y1) & within(0, 1_000_000, self.radius)
    }

    // Its place is on the sheet, and no clip before it has the place.
    #[tactic(auto, unfolding(sheet_format::specs::Sheet::clip_place_open, sheet_format::specs::Sheet::clip_of))]
    fn fits(&self, before: &[ClipLine], places: usize) -> bool {
        within(1, places as i64, self.place) & !is_clipped(before, self.place)
    }

    ghost narrow = { Prim.search rules };

    ghost wide = { λ places. refl };

    ghost blind = { λ places before p b. clip_blind places before p };
}

impl SheetLine for TapLine {
    ghost WIDTH = { spec.tap_width };

    ghost numbers = { tap_numbers };

    ghost rule = { λ places. spec.tap_rule };

    const WIDTH: usize = TAP_WIDTH;

    fn of_row(row: &[i64; LINE_WIDTH]) -> TapLine {
        TapLine {
            x: row[0],
            y: row[1],
            flags: row[2],
        }
    }

    #[tactic(auto, unfolding(sheet_format::specs::Sheet::tap_in_range, sheet_format::specs::Sheet::tap_of))]
    fn is_in_range(&self) -> bool {
        coordinate(self.x) & coordinate(self.y) & within(0, 7, self.flags)
    }

    fn fits(&self, _before: &[TapLine], _places: usize) -> bool {
        true
    }

    ghost narrow = { Prim.search rules };

    ghost wide = { λ places. refl };

    ghost blind = { λ places before p b. tap_blind before };
}
