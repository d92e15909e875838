// The plan sheet: its lines, and what reading one gives.
#![tactic(auto)]

pub mod lines; // the lines of one kind

use lines::Lines;
use sheet_lines::LINE_WIDTH;

// The numbers on a place's line: none is wider.
pub const PLACE_WIDTH: usize = LINE_WIDTH;

// The numbers on a clip's line.
pub const CLIP_WIDTH: usize = 6;

// The numbers on a tap's line.
pub const TAP_WIDTH: usize = 3;

// The most places of a sheet, and so the most clips.
pub const MOST_PLACES: usize = 256;

// The most taps of a sheet.
pub const MOST_TAPS: usize = 1000;

// A place: its parent (0 none), orientation, shift, bounds, slop, level and flags.
#[derive(Clone, Copy, Default, Drop)]
pub struct PlaceLine {
    pub parent: i64,
    pub orientation: i64,
    pub x: i64,
    pub y: i64,
    pub x0: i64,
    pub y0: i64,
    pub x1: i64,
    pub y1: i64,
    pub slop: i64,
    pub level: i64,
    pub flags: i64,
}

// A clip: its place, corners and radius.
#[derive(Clone, Copy, Default, Drop)]
pub struct ClipLine {
    pub place: i64,
    pub x0: i64,
    pub y0: i64,
    pub x1: i64,
    pub y1: i64,
    pub radius: i64,
}

// A tap: its point and the flags that it asks for.
#[derive(Clone, Copy, Default, Drop)]
pub struct TapLine {
    pub x: i64,
    pub y: i64,
    pub flags: i64,
}

// What a sheet is refused for.
#[derive(Clone, Copy, Debug, Drop, PartialEq, Eq)]
pub enum Refusal {
    TooLong,
    Malformed,
    OutOfRange,
    BadPlace,
    Trailing,
}

// Why a sheet is refused, and the line, counted from 1; of one that is too long the line is 0.
#[derive(Clone, Copy, Debug, Drop, PartialEq, Eq)]
pub struct Refused {
    pub why: Refusal,
    pub line: usize,
}

// The lines of a sheet.
#[derive(Clone, Copy, Drop)]
pub struct Parsed {
    pub places: Lines<PlaceLine, MOST_PLACES>,
    pub clips: Lines<ClipLine, MOST_PLACES>,
    pub taps: Lines<TapLine, MOST_TAPS>,
}
