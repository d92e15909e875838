// A tap of a sheet on the sheet's tree: the place hit and its depth.
ghost use Rattle.std.specs.Prelude.{◌≡◌, IfSome};
ghost use Rattle.tree_verdicts.specs.Held.{Held};
ghost use Rattle.tree_taps.specs.Taps.{Shown, best_of};
ghost use Rattle.agreement_calls.proofs.requests.Tap.{tap_of};
ghost use Rattle.sheet_answers.specs.tap_lines.Lines.{Ready, found};
ghost use Rattle.sheet_answers.specs.taps.Taps as spec;

use sheet_format::TapLine;
use tree_state::Tree;

// The place hit, or 0, and its depth, or 0: the numbers of the tap's line.
#[derive(Clone, Copy)]
pub struct Answered {
    pub place: usize,
    pub depth: usize,
}

// Of the slot that a tap has found, if there is one. Place k is the node (k − 1, 1).
fn answer_at(tree: &Tree, best: Option<u32>) -> Answered
    requires held { Held tree.now }
    requires shown { IfSome best (Shown tree.now) }
    ensures { result ≡ spec.answered (tap_of tree.now (best_of best)) }
{
    let Some(slot) = best else {
        return Answered { place: 0, depth: 0 };
    };
    let at = tree.links.position(slot);
    Answered {
        place: slot as usize + 1,
        depth: tree.links.depth[at] as usize,
    }
}

// Inner: of a tap that nothing refuses, so that nothing is tested again.
#[tactic(auto, using(tree_taps::proofs::candidates::Tap::tappable))]
pub(crate) fn tapped(tree: &Tree, tap: TapLine) -> Answered
    requires { Ready tree.now tap }
    ensures { result ≡ spec.answered (found tree.now tap) }
{
    let asked = sheet_records::taps::asked_of(tap);
    let point = sheet_records::taps::point_of(tap);
    let best = tree_taps::strongest(tree, asked, point);
    answer_at(tree, best)
}
