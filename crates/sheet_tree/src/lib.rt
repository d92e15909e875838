// The tree of a sheet: its inserts, then one commit. Nothing that reading has tested is tested again: every call of a good sheet is accepted.
#![tactic(auto)]

pub mod arguments; // what an insert is handed
pub mod places; // the inserts

ghost use Rattle.std.specs.Prelude.{◌≡◌};
ghost use Rattle.tree_state.specs.Tree.{fresh_tree};
ghost use Rattle.sheet_format.specs.Sheet.{read_sheet};
ghost use Rattle.sheet_format.specs.Told.{sheet_of};
ghost use Rattle.sheet_calls.specs.Good.{Good};
ghost use Rattle.sheet_laws.specs.Built.{tree_of};
ghost use Rattle.sheet_tree.specs.Trees as spec;

use sheet_format::lines::Lines;
use sheet_format::{MOST_TAPS, Parsed, Refused, TapLine};
use tree_commit::work;
use tree_state::Tree;

// The committed tree of a sheet, and the sheet's taps.
#[derive(Clone, Copy, Drop)]
pub struct SheetTree {
    pub tree: Tree,
    pub taps: Lines<TapLine, MOST_TAPS>,
}

// A fresh tree becomes that of a good sheet. It is lent, not returned: a copy more of it would stand on the stack.
fn build(tree: &mut Tree, sheet: &Parsed)
    requires fresh { tree.old ≡ fresh_tree }
    requires good { Good (sheet_of sheet.now) }
    ensures { tree.new ≡ tree_of (sheet_of sheet.now) }
{
    places::insert_all(tree, sheet);
    let mut room = [0.0; 2048];
    work::commit_sound(tree, &mut room);
}

// The tree that some bytes stand for, with their taps; or why they are refused.
pub fn read_tree(bytes: &[u8]) -> Result<SheetTree, Refused>
    ensures { spec.told_tree result ≡ spec.tree_on (read_sheet bytes.now) }
{
    let sheet = sheet_reader::read_sheet(bytes)?;
    let mut built = SheetTree {
        tree: tree_state::fresh(),
        taps: sheet.taps,
    };
    build(&mut built.tree, &sheet);
    Ok(built)
}
