// Clips: none, square, or rounded with four radii.
// Every function takes every f64, NaN and infinities included. Each contract says which definition of specs/ the result equals.
#![tactic(auto)]

pub mod clip; // clips and their constructor
pub mod constructed; // whether a clip is as constructed
pub mod rounded_rect; // a rectangle with four radii
pub mod rounded_rect_radii; // the four radii
