// One number of a tree's tables, changed by hand. A place beyond a table changes nothing. The numbers of a table of records count one after the other,
// record by record; of a clip the edges and then the radii.
use geometry::affine::Affine;
use geometry::insets::Insets;
use geometry::rect::Rect;
use geometry_clips::rounded_rect_radii::RoundedRectRadii;
use index_types::{Aabb2D, NodeId};
use text_lines::spelling::named;
use text_lines::words::{Words, number, whole};
use tree_state::{Local, Tree};
use tree_types::NodeFlags;

fn at<T, F>(table: &mut [T], place: u32, store: F)
where
    F: FnOnce(&mut T),
    requires { F.IsAlwaysCallable store }
{
    if let Some(old) = table.get_mut(place as usize) {
        store(old);
    }
}

fn put<T: Copy>(table: &mut [T], place: u32, value: T) {
    at(table, place, |old| *old = value);
}

// `TABLE PLACE NUMBER`: a whole number, or an f64 by its bits. Nothing where the words say no such thing.
pub(crate) fn change(words: &mut Words, tree: &mut Tree) -> Option<()> {
    let name = words.next()?;
    let place = words.whole()?;
    let value = words.next()?;
    if !words.is_empty() {
        return None;
    }
    counts(tree, name, place, value)
}

fn count(value: &[u8]) -> Option<usize> {
    Some(whole::<u32>(value)? as usize)
}

// The counts.
#[derive(Clone, Copy)]
enum CountTable {
    SlotsUsed,
    SlotsFrees,
    LinksCount,
    PendingCount,
    IndexUsed,
    IndexFrees,
    IndexQueued,
}

fn count_table_of(name: &[u8]) -> Option<CountTable> {
    named(
        b"slots.used slots.frees links.count pending.count index.used index.frees index.queued",
        &[
            CountTable::SlotsUsed,
            CountTable::SlotsFrees,
            CountTable::LinksCount,
            CountTable::PendingCount,
            CountTable::IndexUsed,
            CountTable::IndexFrees,
            CountTable::IndexQueued,
        ],
        name,
    )
}

fn counts(tree: &mut Tree, name: &[u8], place: u32, value: &[u8]) -> Option<()> {
    let Some(table) = count_table_of(name) else {
        return words(tree, name, place, value);
    };
    match table {
        CountTable::SlotsUsed => tree.slots.used = count(value)?,
        CountTable::SlotsFrees => tree.slots.frees = count(value)?,
        CountTable::LinksCount => tree.links.count = count(value)?,
        CountTable::PendingCount => tree.pending.count = count(value)?,
        CountTable::IndexUsed => tree.index.used = count(value)?,
        CountTable::IndexFrees => tree.index.frees = count(value)?,
        CountTable::IndexQueued => tree.index.queued = count(value)?,
    }
    Some(())
}

// One number of an id, of a rectangle and so on, in the order of its fields.
fn put_in_id(id: &mut NodeId, field: u32, n: u32) {
    let mut row = [id.0, id.1];
    put(&mut row, field, n);
    *id = NodeId(row[0], row[1]);
}

fn put_in_rect(rect: &mut Rect, field: u32, f: f64) {
    let mut row = [rect.x0, rect.y0, rect.x1, rect.y1];
    put(&mut row, field, f);
    let [x0, y0, x1, y1] = row;
    *rect = Rect { x0, y0, x1, y1 };
}

fn put_in_insets(insets: &mut Insets, field: u32, f: f64) {
    let mut row = [insets.x0, insets.y0, insets.x1, insets.y1];
    put(&mut row, field, f);
    let [x0, y0, x1, y1] = row;
    *insets = Insets { x0, y0, x1, y1 };
}

fn put_in_transform(t: &mut Affine, field: u32, number: f64) {
    let mut row = [t.a, t.b, t.c, t.d, t.e, t.f];
    put(&mut row, field, number);
    let [a, b, c, d, e, f] = row;
    *t = Affine { a, b, c, d, e, f };
}

// The edges and then the radii.
fn put_in_clip(local: &mut Local, field: u32, f: f64) {
    let (r, q) = (local.clip, local.radii);
    let mut row = [
        r.x0,
        r.y0,
        r.x1,
        r.y1,
        q.top_left,
        q.top_right,
        q.bottom_right,
        q.bottom_left,
    ];
    put(&mut row, field, f);
    let [
        x0,
        y0,
        x1,
        y1,
        top_left,
        top_right,
        bottom_right,
        bottom_left,
    ] = row;
    local.clip = Rect { x0, y0, x1, y1 };
    local.radii = RoundedRectRadii {
        top_left,
        top_right,
        bottom_right,
        bottom_left,
    };
}

fn put_in_box(aabb: &mut Aabb2D, field: u32, f: f64) {
    let mut row = [aabb.min_x, aabb.min_y, aabb.max_x, aabb.max_y];
    put(&mut row, field, f);
    let [min_x, min_y, max_x, max_y] = row;
    *aabb = Aabb2D::new(min_x, min_y, max_x, max_y);
}

// The tables of whole numbers.
#[derive(Clone, Copy)]
enum WordTable {
    SlotsGeneration,
    SlotsFree,
    LinksOrder,
    LinksDepth,
    KeysSlot,
    KeysGeneration,
    IndexGeneration,
    IndexFree,
    IndexDirty,
    IndexPayload,
}

fn word_table_of(name: &[u8]) -> Option<WordTable> {
    named(
        b"slots.generation slots.free links.order links.depth keys.slot keys.generation index.generation index.free index.dirty index.payload",
        &[
            WordTable::SlotsGeneration,
            WordTable::SlotsFree,
            WordTable::LinksOrder,
            WordTable::LinksDepth,
            WordTable::KeysSlot,
            WordTable::KeysGeneration,
            WordTable::IndexGeneration,
            WordTable::IndexFree,
            WordTable::IndexDirty,
            WordTable::IndexPayload,
        ],
        name,
    )
}

// The whole numbers. A word that is none is the bits of an f64.
fn words(tree: &mut Tree, name: &[u8], place: u32, value: &[u8]) -> Option<()> {
    let Some(n) = whole::<u32>(value) else {
        return local_floats(tree, name, place, number(value)?);
    };
    let Some(table) = word_table_of(name) else {
        return bytes(tree, name, place, n);
    };
    match table {
        WordTable::SlotsGeneration => put(&mut tree.slots.generation, place, n),
        WordTable::SlotsFree => put(&mut tree.slots.free, place, n),
        WordTable::LinksOrder => put(&mut tree.links.order, place, n),
        WordTable::LinksDepth => put(&mut tree.links.depth, place, n),
        WordTable::KeysSlot => at(&mut tree.keys, place, |k| k.key.0 = n),
        WordTable::KeysGeneration => at(&mut tree.keys, place, |k| k.key.1 = n),
        WordTable::IndexGeneration => at(&mut tree.index.entries, place, |e| e.generation = n),
        WordTable::IndexFree => put(&mut tree.index.free, place, n),
        WordTable::IndexDirty => put(&mut tree.index.dirty, place, n),
        WordTable::IndexPayload => at(
            &mut tree.index.entries,
            place / 2,
            |e| put_in_id(&mut e.payload, place % 2, n),
        ),
    }
    Some(())
}

// The tables of bytes.
#[derive(Clone, Copy)]
enum ByteTable {
    LocalsKind,
    LocalsFlags,
    IndexMark,
    IndexKept,
    BackendPresent,
}

fn byte_table_of(name: &[u8]) -> Option<ByteTable> {
    named(
        b"locals.kind locals.flags index.mark index.kept backend.present",
        &[
            ByteTable::LocalsKind,
            ByteTable::LocalsFlags,
            ByteTable::IndexMark,
            ByteTable::IndexKept,
            ByteTable::BackendPresent,
        ],
        name,
    )
}

// From 255 on 255.
fn bytes(tree: &mut Tree, name: &[u8], place: u32, n: u32) -> Option<()> {
    let byte = u8::try_from(n).unwrap_or(u8::MAX);
    let Some(table) = byte_table_of(name) else {
        return truths(tree, name, place, n != 0);
    };
    match table {
        ByteTable::LocalsKind => at(&mut tree.locals, place, |l| l.kind = byte),
        ByteTable::LocalsFlags => at(&mut tree.locals, place, |l| l.flags = NodeFlags(byte)),
        ByteTable::IndexMark => at(&mut tree.index.entries, place, |e| e.mark = byte),
        ByteTable::IndexKept => at(&mut tree.index.entries, place, |e| e.kept = byte),
        ByteTable::BackendPresent => at(
            &mut tree.index.backend.entries,
            place,
            |s| s.present = byte,
        ),
    }
    Some(())
}

// The tables of truth values.
#[derive(Clone, Copy)]
enum TruthTable {
    MarksMarked,
    MarksTransform,
    MarksClip,
    KeysCommitted,
    WorldsClipped,
}

fn truth_table_of(name: &[u8]) -> Option<TruthTable> {
    named(
        b"marks.marked marks.transform marks.clip keys.committed worlds.clipped",
        &[
            TruthTable::MarksMarked,
            TruthTable::MarksTransform,
            TruthTable::MarksClip,
            TruthTable::KeysCommitted,
            TruthTable::WorldsClipped,
        ],
        name,
    )
}

fn truths(tree: &mut Tree, name: &[u8], place: u32, truth: bool) -> Option<()> {
    match truth_table_of(name)? {
        TruthTable::MarksMarked => at(&mut tree.marks, place, |m| m.marked = truth),
        TruthTable::MarksTransform => at(&mut tree.marks, place, |m| m.transform = truth),
        TruthTable::MarksClip => at(&mut tree.marks, place, |m| m.clip = truth),
        TruthTable::KeysCommitted => at(&mut tree.keys, place, |k| k.committed = truth),
        TruthTable::WorldsClipped => at(&mut tree.worlds, place, |w| w.clipped = truth),
    }
    Some(())
}

// The tables of f64 that local records hold.
#[derive(Clone, Copy)]
enum LocalTable {
    LocalsBounds,
    LocalsSlop,
    LocalsTransform,
    LocalsClip,
}

fn local_table_of(name: &[u8]) -> Option<LocalTable> {
    named(
        b"locals.bounds locals.slop locals.transform locals.clip",
        &[
            LocalTable::LocalsBounds,
            LocalTable::LocalsSlop,
            LocalTable::LocalsTransform,
            LocalTable::LocalsClip,
        ],
        name,
    )
}

fn local_floats(tree: &mut Tree, name: &[u8], place: u32, f: f64) -> Option<()> {
    let locals = &mut tree.locals;
    let Some(table) = local_table_of(name) else {
        return world_floats(tree, name, place, f);
    };
    match table {
        LocalTable::LocalsBounds => at(
            locals,
            place / 4,
            |l| put_in_rect(&mut l.bounds, place % 4, f),
        ),
        LocalTable::LocalsSlop => at(
            locals,
            place / 4,
            |l| put_in_insets(&mut l.slop, place % 4, f),
        ),
        LocalTable::LocalsTransform => at(
            locals,
            place / 6,
            |l| put_in_transform(&mut l.transform, place % 6, f),
        ),
        LocalTable::LocalsClip => at(locals, place / 8, |l| put_in_clip(l, place % 8, f)),
    }
    Some(())
}

// The tables of f64 that world records hold.
#[derive(Clone, Copy)]
enum WorldTable {
    WorldsTransform,
    WorldsClip,
    WorldsBounds,
    WorldsHitBounds,
}

fn world_table_of(name: &[u8]) -> Option<WorldTable> {
    named(
        b"worlds.transform worlds.clip worlds.bounds worlds.hit_bounds",
        &[
            WorldTable::WorldsTransform,
            WorldTable::WorldsClip,
            WorldTable::WorldsBounds,
            WorldTable::WorldsHitBounds,
        ],
        name,
    )
}

fn world_floats(tree: &mut Tree, name: &[u8], place: u32, f: f64) -> Option<()> {
    let worlds = &mut tree.worlds;
    let Some(table) = world_table_of(name) else {
        return other_floats(tree, name, place, f);
    };
    match table {
        WorldTable::WorldsTransform => at(
            worlds,
            place / 6,
            |w| put_in_transform(&mut w.transform, place % 6, f),
        ),
        WorldTable::WorldsClip => at(
            worlds,
            place / 4,
            |w| put_in_rect(&mut w.clip, place % 4, f),
        ),
        WorldTable::WorldsBounds => at(
            worlds,
            place / 4,
            |w| put_in_rect(&mut w.bounds, place % 4, f),
        ),
        WorldTable::WorldsHitBounds => at(
            worlds,
            place / 4,
            |w| put_in_rect(&mut w.hit_bounds, place % 4, f),
        ),
    }
    Some(())
}

// The other tables of f64: rectangles and boxes.
#[derive(Clone, Copy)]
enum BoxTable {
    PendingRects,
    IndexAabb,
    IndexPrev,
    BackendBoxes,
}

fn box_table_of(name: &[u8]) -> Option<BoxTable> {
    named(
        b"pending.rects index.aabb index.prev backend.boxes",
        &[
            BoxTable::PendingRects,
            BoxTable::IndexAabb,
            BoxTable::IndexPrev,
            BoxTable::BackendBoxes,
        ],
        name,
    )
}

fn other_floats(tree: &mut Tree, name: &[u8], place: u32, f: f64) -> Option<()> {
    let (row, field) = (place / 4, place % 4);
    let entries = &mut tree.index.entries;
    match box_table_of(name)? {
        BoxTable::PendingRects => at(&mut tree.pending.rects, row, |r| put_in_rect(r, field, f)),
        BoxTable::IndexAabb => at(entries, row, |e| put_in_box(&mut e.aabb, field, f)),
        BoxTable::IndexPrev => at(entries, row, |e| put_in_box(&mut e.prev, field, f)),
        BoxTable::BackendBoxes => at(
            &mut tree.index.backend.entries,
            row,
            |s| put_in_box(&mut s.aabb, field, f),
        ),
    }
    Some(())
}
