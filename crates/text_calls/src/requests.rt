// Calls that are lent room.
ghost use Rattle.std.specs.Prelude.{◌≤◌};

use crate::read::{Fault, FromWords};
use crate::show;
use crate::show::Show;
use geometry::point::Point;
use index_types::NodeId;
use std::io::Write;
use text_lines::calls::end;
use text_lines::print::Out;
use text_lines::words::Words;
use tree_state::{Refusal, Tree};
use tree_taps::Hit;
use tree_types::QueryFilter;

// How many ids or rectangles room for n holds; from 512 on all that there is.
fn lent(n: u32) -> usize
    ensures { result ≤ 512 }
{
    n.min(512) as usize
}

pub(crate) fn commit(
    out: &mut Out,
    words: &mut Words,
    tree: &mut Tree,
    rects: u32,
) -> Result<(), Fault> {
    end(words)?;
    let mut room = [0.0; 2048];
    let count = tree_commit::commit(tree, &mut room[..4 * lent(rects)]).map_err(Fault::Refused)?;
    show::rects(out, &room, count)?;
    Ok(())
}

pub(crate) fn children_of(
    out: &mut Out,
    words: &mut Words,
    tree: &Tree,
    ids: u32,
) -> Result<(), Fault> {
    let id = NodeId::from_words(words)?;
    end(words)?;
    let mut room = [0; 1024];
    let count = tree_links::children_of(tree, id, &mut room[..2 * lent(ids)]).map_err(
        Fault::Refused,
    )?;
    show::ids(out, &room, count)?;
    Ok(())
}

// A listing, of what a point or a rectangle and a filter ask for.
pub(crate) fn listing<T, F>(
    out: &mut Out,
    words: &mut Words,
    tree: &Tree,
    ids: u32,
    list: F,
) -> Result<(), Fault>
where
    T: FromWords,
    F: FnOnce(&Tree, T, QueryFilter, &mut [u32]) -> Result<usize, Refusal>,
    requires { F.IsAlwaysCallable list }
{
    let asked = T::from_words(words)?;
    let filter = QueryFilter::from_words(words)?;
    end(words)?;
    let mut room = [0; 1024];
    let count = list(tree, asked, filter, &mut room[..2 * lent(ids)]).map_err(Fault::Refused)?;
    show::ids(out, &room, count)?;
    Ok(())
}

// The node, and its path from the root.
pub(crate) fn hit_test_point(
    out: &mut Out,
    words: &mut Words,
    tree: &Tree,
    ids: u32,
) -> Result<(), Fault> {
    let point = Point::from_words(words)?;
    let filter = QueryFilter::from_words(words)?;
    end(words)?;
    let mut room = [0; 1024];
    let hit = tree_taps::hit_test_point(tree, point, filter, &mut room[..2 * lent(ids)]).map_err(
        Fault::Refused,
    )?;
    match hit {
        Some(Hit { node, depth }) => {
            node.show(out)?;
            write!(out, " ")?;
            show::ids(out, &room, depth)?;
        }
        None => write!(out, "none")?,
    }
    Ok(())
}
