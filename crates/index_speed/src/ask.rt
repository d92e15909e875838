// Phases of 64 queries a round.
use crate::{fill, work};
use index_types::{Index, Refusal};
use std::time::CpuClock;
use text_lines::report;
use understory_index::queries;

// Adds, for each entry of a query, its payload's index and 1.
fn found(answer: Result<usize, Refusal>, room: &[u32], start: u64) -> u64 {
    let mut sum = start;
    for entry in room.chunks_exact(4).take(answer.unwrap_or(0)) {
        if let [_, _, payload, _] = *entry {
            sum = sum.wrapping_add(u64::from(payload)).wrapping_add(1);
        }
    }
    sum
}

fn points(index: &Index, height: f64, start: u64) -> u64 {
    let mut room = [0; 2048];
    let mut sum = start;
    for k in 0..64 {
        let answer = queries::query_point(index, work::x(k), work::y(k, height), &mut room);
        sum = found(answer, &room, sum);
    }
    sum
}

fn rects(index: &Index, height: f64, start: u64) -> u64 {
    let mut room = [0; 2048];
    let mut sum = start;
    for k in 0..64 {
        let answer = queries::query_rect(index, work::rect(k, height), &mut room);
        sum = found(answer, &room, sum);
    }
    sum
}

// Queries that are refused for their room: what testing an index costs.
fn refusals(index: &Index, height: f64, start: u64) -> u64 {
    let mut sum = start;
    for k in 0..64 {
        if queries::query_rect(index, work::rect(k, height), &mut [0; 4]).is_err() {
            sum = sum.wrapping_add(1);
        }
    }
    sum
}

// A phase of queries among n entries, eight to a row.
fn phase<R, F>(rt: &R, name: &[u8], n: u32, rounds: u32, round: F)
where
    R: CpuClock,
    F: Fn(&Index, f64, u64) -> u64,
    requires { F.IsAlwaysCallable round }
{
    let (index, _) = fill::committed(n);
    let height = f64::from(n / 8) * 10.0;
    report::phase(rt, name, 64, rounds, 0, |sum, _| round(&index, height, sum));
}

pub(crate) fn phases<R: CpuClock>(rt: &R, rounds: u32) {
    phase(rt, b"point_64", 64, rounds, points);
    phase(rt, b"point_512", 512, rounds, points);
    phase(rt, b"rect_64", 64, rounds, rects);
    phase(rt, b"rect_512", 512, rounds, rects);
}

pub(crate) fn own_phase<R: CpuClock>(rt: &R, rounds: u32) {
    phase(rt, b"own_refusal_512", 512, rounds, refusals);
}
