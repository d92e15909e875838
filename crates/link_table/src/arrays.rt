// Changes of one flat array, of which the first `count` places are a table's, and the end of a segment among depths.
ghost use Rattle.std.specs.Prelude.{◌≡◌, ◌∷◌, [], ℕ, ◌+◌, ◌<◌, ◌≤◌, ◌==◌, map, length, get_or, ltb};
ghost use Rattle.std.specs.List.{position, take_while};
ghost use Rattle.link_forest.specs.Table.{seg_end, rebased, insert_all, cut_out};

// Inner: the item goes in at the place `at`.
pub fn insert_at(array: &mut [u32; 256], count: usize, at: usize, item: u32)
    requires { (at ≤ count) × (count < 256) × (length array.old ≡ 256) }
    ensures { (length array.new ≡ 256) × (array.new ≡ insert_all count at (item ∷ []) array.old) }
{
    insert_all(array, count, at, &[item]);
}

// Inner: the items go in at the place `at`.
pub(crate) fn insert_all(array: &mut [u32; 256], count: usize, at: usize, items: &[u32])
    requires { (at ≤ count) × (count + length items.now ≤ 256) × (length array.old ≡ 256) }
    ensures { array.new ≡ insert_all count at items.now array.old }
{
    let end = at + items.len();
    array.copy_within(at..count, end);
    array[at..end].copy_from_slice(items);
}

// Inner: the places from `from` up to `to` go out.
pub(crate) fn cut_out(array: &mut [u32; 256], count: usize, from: usize, to: usize)
    requires { (from ≤ to) × (to ≤ count) × (count ≤ 256) × (length array.old ≡ 256) }
    ensures { array.new ≡ cut_out count from to array.old }
{
    array.copy_within(to..count, from);
}

// Inner: the depths below a node that lay at `was` and lies at `is` now.
pub(crate) fn rebase(depths: &mut [u32], was: u32, is: u32)
    requires { (j : ℕ) → j < length depths.old → get_or depths.old j 0 + is < 4294967296 }
    ensures { depths.new ≡ map (rebased was is) depths.old }
{
    for depth in depths.iter_mut() {
        *depth = depth.saturating_sub(was) + is;
    }
}

// Inner: the first place of the item.
pub(crate) fn position(array: &[u32], item: u32) -> Option<usize>
    ensures { result ≡ position (λ x. x == item) array.now }
{
    array.iter().position(|other| *other == item)
}

// How many of the depths from the front on exceed `above`.
fn run_length(depths: &[u32], above: u32) -> usize
    ensures { result ≡ length (take_while (λ x. ltb above x) depths.now) }
{
    depths.iter().take_while(|depth| above < **depth).count()
}

// Inner: where the segment of the position `at` ends.
pub(crate) fn segment_end(depths: &[u32], at: usize) -> usize
    requires { (at < length depths.now) × (length depths.now ≤ 256) }
    ensures { (at < result) × (result ≤ length depths.now) × (result ≡ seg_end depths.now at) }
{
    let next = at + 1;
    next + run_length(&depths[next..], depths[at])
}
