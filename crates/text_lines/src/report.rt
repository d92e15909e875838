// What the programs that time calls share: the number of rounds, the clock, and the lines.
ghost use Rattle.std.specs.Prelude.{◌≤◌};

use std::io::Read;
use std::time::CpuClock;

// The first decimal digits, at most four.
fn number(s: &[u8]) -> u32
    ensures { result ≤ 9999 }
{
    let mut n = 0;
    for b in s {
        if n > 999 || !b.is_ascii_digit() {
            break;
        }
        n = n * 10 + u32::from(*b - b'0');
    }
    n
}

// The number that is read, of one read's bytes; nothing, 0 and a read that fails stand for 1.
pub fn rounds<R: Read>(reader: &mut R) -> u32
    ensures { result ≤ 9999 }
{
    let mut block = [0; 4096];
    let n = reader.read(&mut block).unwrap_or(0);
    number(&block[..n]).max(1)
}

// Inner: microseconds of processor time that the process has used, and 0 where the system tells none.
pub fn clock(rt: &impl CpuClock) -> u64 {
    match rt.process_cpu_time() {
        Ok(t) => {
            let whole = t.as_secs().wrapping_mul(1_000_000);
            whole.wrapping_add(u64::from(t.subsec_micros()))
        }
        Err(_) => 0,
    }
}

// Behind a space.
fn field(fd: i32, n: u64) {
    io::write_all(fd, b" ");
    io::print_decimal(fd, n);
}

// Inner: `name units sum`, to standard output. A write that fails is passed over, here and below.
pub fn total(name: &[u8], units: u64, sum: u64) {
    io::write_all(1, name);
    field(1, units);
    field(1, sum);
    io::write_all(1, b"\n");
}

// Inner: a phase of so many rounds, each handed the sum so far, from `start` on, and the number of rounds that are left: `name units sum`, and to
// standard error `name time`.
pub fn phase<R, F>(rt: &R, name: &[u8], units: u64, rounds: u32, start: u64, round: F)
where
    R: CpuClock,
    F: FnMut(u64, u32) -> u64,
    requires { F.IsAlwaysCallable round }
{
    let (sum, time) = timed(rt, rounds, start, round);
    total(name, units, sum);
    io::write_all(2, name);
    field(2, time);
    io::write_all(2, b"\n");
}

// Inner: a phase of so many calls, on so many nodes: `name units sum`, and to standard error `name units calls time`.
pub fn phase_of_calls<R, F>(rt: &R, name: &[u8], units: u32, calls: u32, call: F)
where
    R: CpuClock,
    F: FnMut(u64, u32) -> u64,
    requires { F.IsAlwaysCallable call }
{
    let (sum, time) = timed(rt, calls, 0, call);
    total(name, u64::from(units), sum);
    io::write_all(2, name);
    field(2, u64::from(units));
    field(2, u64::from(calls));
    field(2, time);
    io::write_all(2, b"\n");
}

// The sum of all rounds, and their time in microseconds.
fn timed<R, F>(rt: &R, rounds: u32, start: u64, mut round: F) -> (u64, u64)
where
    R: CpuClock,
    F: FnMut(u64, u32) -> u64,
    requires { F.IsAlwaysCallable round }
{
    let began = clock(rt);
    let mut sum = start;
    for left in (1..=rounds).rev() {
        sum = round(sum, left);
    }
    (sum, clock(rt).wrapping_sub(began))
}
