// A place of a good sheet: its clip, and its parent as a node.
ghost use Rattle.std.specs.Prelude.{◌≡◌, ◌≤◌, true, pos, nat_abs, map, All};
ghost use Rattle.sheet_format.specs.Sheet.{clip_in_range};
ghost use Rattle.sheet_format.specs.Told.{clip_numbers};
ghost use Rattle.sheet_calls.specs.Calls as call;

use geometry_clips::clip::Clip;
use index_types::NodeId;
use sheet_format::{ClipLine, PlaceLine};

// Inner: the clip of place k: that of its line, if there is one.
pub(crate) fn clip_for(clips: &[ClipLine], k: usize) -> Clip
    requires place { k ≤ 256 }
    requires ranged { All (λ (c : ClipLine). clip_in_range c ≡ true) clips.now }
    ensures { result ≡ call.clip_for (map clip_numbers clips.now) k }
{
    let place = k as i64;
    match clips.iter().find(|clip| clip.place == place) {
        Some(clip) => sheet_records::clips::clip_on(*clip),
        None => Clip::None,
    }
}

// Inner: the parent that a place's line names: none for 0; place k is the node (k − 1, 1).
pub(crate) fn parent_of(place: PlaceLine) -> Option<NodeId>
    requires whole { place.parent ≡ pos (nat_abs place.parent) }
    requires low { nat_abs place.parent ≤ 256 }
    ensures { result ≡ call.parent_at (nat_abs place.parent) }
{
    let number = place.parent as u32;
    if number == 0 {
        return None;
    }
    Some(NodeId(number - 1, 1))
}
