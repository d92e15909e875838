// An insert for each place of a good sheet, its clip given with it. Nothing is tested again: every insert is accepted.
ghost use Rattle.std.specs.Prelude.{◌≡◌, length};
ghost use Rattle.tree_state.specs.Tree.{fresh_tree};
ghost use Rattle.sheet_format.specs.Lines.{items};
ghost use Rattle.sheet_format.specs.Told.{sheet_of};
ghost use Rattle.sheet_calls.specs.Good.{Good};
ghost use Rattle.sheet_laws.specs.Built.{tree_up_to};

use crate::arguments;
use sheet_format::Parsed;
use tree_state::Tree;

// Inner: every place, in order, into a fresh tree.
pub(crate) fn insert_all(tree: &mut Tree, sheet: &Parsed)
    requires fresh { tree.old ≡ fresh_tree }
    requires good { Good (sheet_of sheet.now) }
    ensures { tree.new ≡ tree_up_to (sheet_of sheet.now) (length (items sheet.now.places)) }
{
    let places = sheet.places.as_slice();
    let clips = sheet.clips.as_slice();
    for i in 0..places.len() {
        let place = places[i];
        let clip = arguments::clip_for(clips, i + 1);
        let parent = arguments::parent_of(place);
        let local = sheet_records::local_of(place, clip);
        tree_insert::insert_accepted(tree, parent, local);
    }
}
