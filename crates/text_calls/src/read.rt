// What the words of a call stand for.
use geometry::affine::Affine;
use geometry::insets::Insets;
use geometry::point::Point;
use geometry::rect::Rect;
use geometry_clips::clip::Clip;
use index_types::NodeId;
use text_lines::spelling::{named, place};
use text_lines::words::Words;
use text_lines::{calls, words};
use tree_state::Refusal;
use tree_types::{LocalNode, NodeFlags, QueryFilter};

// Why a call has no answer of its own.
pub(crate) type Fault = calls::Fault<Refusal>;

// What is read from the words that come next.
pub(crate) trait FromWords: Drop {
    fn from_words(words: &mut Words) -> Result<Self, Fault>;
}

fn number(words: &mut Words) -> Result<f64, Fault> {
    words.number().ok_or(Fault::Malformed)
}

fn four(words: &mut Words) -> Result<[f64; 4], Fault> {
    words.four().ok_or(Fault::Malformed)
}

fn id(word: &[u8]) -> Result<NodeId, Fault> {
    let (index, generation) = words::pair(word).ok_or(Fault::Malformed)?;
    Ok(NodeId(index, generation))
}

impl FromWords for u32 {
    fn from_words(words: &mut Words) -> Result<u32, Fault> {
        words.whole().ok_or(Fault::Malformed)
    }
}

impl FromWords for i32 {
    fn from_words(words: &mut Words) -> Result<i32, Fault> {
        words.whole().ok_or(Fault::Malformed)
    }
}

impl FromWords for NodeFlags {
    fn from_words(words: &mut Words) -> Result<NodeFlags, Fault> {
        Ok(NodeFlags(words.whole().ok_or(Fault::Malformed)?))
    }
}

impl FromWords for QueryFilter {
    fn from_words(words: &mut Words) -> Result<QueryFilter, Fault> {
        Ok(QueryFilter {
            required_flags: NodeFlags::from_words(words)?,
        })
    }
}

impl FromWords for NodeId {
    fn from_words(words: &mut Words) -> Result<NodeId, Fault> {
        id(words.next().ok_or(Fault::Malformed)?)
    }
}

// A parent, where `-` is none.
impl FromWords for Option<NodeId> {
    fn from_words(words: &mut Words) -> Result<Option<NodeId>, Fault> {
        let word = words.next().ok_or(Fault::Malformed)?;
        if place(b"-", word).is_some() {
            return Ok(None);
        }
        Ok(Some(id(word)?))
    }
}

impl FromWords for Point {
    fn from_words(words: &mut Words) -> Result<Point, Fault> {
        Ok(Point {
            x: number(words)?,
            y: number(words)?,
        })
    }
}

impl FromWords for Rect {
    fn from_words(words: &mut Words) -> Result<Rect, Fault> {
        let [x0, y0, x1, y1] = four(words)?;
        Ok(Rect { x0, y0, x1, y1 })
    }
}

impl FromWords for Insets {
    fn from_words(words: &mut Words) -> Result<Insets, Fault> {
        let [x0, y0, x1, y1] = four(words)?;
        Ok(Insets { x0, y0, x1, y1 })
    }
}

impl FromWords for Affine {
    fn from_words(words: &mut Words) -> Result<Affine, Fault> {
        let [a, b, c, d] = four(words)?;
        let e = number(words)?;
        let f = number(words)?;
        Ok(Affine { a, b, c, d, e, f })
    }
}

// The kinds of a clip.
#[derive(Clone, Copy)]
enum Kind {
    None,
    Square,
    Rounded,
}

fn kind_of(name: &[u8]) -> Option<Kind> {
    named(
        b"none square rounded",
        &[Kind::None, Kind::Square, Kind::Rounded],
        name,
    )
}

// `none`, `square` with its edges, or `rounded` with its edges and radii.
impl FromWords for Clip {
    fn from_words(words: &mut Words) -> Result<Clip, Fault> {
        let word = words.next().ok_or(Fault::Malformed)?;
        match kind_of(word).ok_or(Fault::Malformed)? {
            Kind::None => Ok(Clip::None),
            Kind::Square => {
                let [x0, y0, x1, y1] = four(words)?;
                Ok(Clip::Square { x0, y0, x1, y1 })
            }
            Kind::Rounded => {
                let [x0, y0, x1, y1] = four(words)?;
                let [top_left, top_right, bottom_right, bottom_left] = four(words)?;
                Ok(Clip::Rounded {
                    x0,
                    y0,
                    x1,
                    y1,
                    top_left,
                    top_right,
                    bottom_right,
                    bottom_left,
                })
            }
        }
    }
}

// Bounds, slop, transform, clip, level and flags.
impl FromWords for LocalNode {
    fn from_words(words: &mut Words) -> Result<LocalNode, Fault> {
        Ok(LocalNode {
            local_bounds: Rect::from_words(words)?,
            hit_slop: Insets::from_words(words)?,
            local_transform: Affine::from_words(words)?,
            local_clip: Clip::from_words(words)?,
            z_index: i32::from_words(words)?,
            flags: NodeFlags::from_words(words)?,
        })
    }
}
