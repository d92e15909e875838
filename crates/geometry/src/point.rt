// A point, as kurbo's point.rs has it.
ghost use Rattle.std.specs.Prelude.{◌≡◌};

#[derive(Clone, Copy, PartialEq)]
pub struct Point {
    pub x: f64,
    pub y: f64,
}

impl Point {
    pub fn new(x: f64, y: f64) -> Self
        ensures { (result.x ≡ x) × (result.y ≡ y) }
    {
        Self { x, y }
    }
}
