// The part of kurbo's plane geometry that the box tree uses: points, rectangles, insets and transforms.
// Every function takes every f64, NaN and infinities included. Each contract says which definition of specs/ the result equals.
#![tactic(auto)]

pub mod affine; // transforms
pub mod as_numbers; // equality as numbers
pub mod bbox; // the box of a rectangle's image
pub mod insets; // how far each edge is moved
pub mod point; // points
pub mod rect; // rectangles
