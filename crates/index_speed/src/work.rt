// The list: boxes 15 wide in steps of 10, eight to a row, so that neighbours overlap. All numbers are exact.
use index_types::Aabb2D;

// The box of entry i, moved to the right by `shift`.
pub(crate) fn place(i: u32, shift: f64) -> Aabb2D {
    let x = f64::from(i % 8) * 10.0 + shift;
    let y = f64::from(i / 8) * 10.0;
    Aabb2D::new(x, y, x + 15.0, y + 15.0)
}

// How far a round moves the boxes, by the number of rounds that are left; the next moves them back.
pub(crate) fn shift(left: u32) -> f64 {
    f64::from(left % 2) + 1.0
}

// The point of query k.
pub(crate) fn x(k: u32) -> f64 {
    f64::from(k % 17) * 5.0
}

// `height` is that of the rows.
pub(crate) fn y(k: u32, height: f64) -> f64 {
    f64::from(k % 64) * height / 64.0
}

// The rectangle of query k has its first corner there.
pub(crate) fn rect(k: u32, height: f64) -> Aabb2D {
    let left = x(k);
    let top = y(k, height);
    Aabb2D::new(left, top, left + 20.0, top + 20.0)
}
