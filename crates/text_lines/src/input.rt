// A reader by lines, and what is answered to them.
ghost use Rattle.std.specs.Prelude.{◌≤◌, length};

use crate::print::{BLOCK, Out, hold};
use arrayvec::ArrayVec;
use std::io::{Read, Write};
use std::rt::Stdout;

// Of a line that is longer only so many bytes are held: no call and no vector is so long.
const LONGEST: usize = 512;

// The line that has begun, as far as it is held.
type Begun = ArrayVec<u8, LONGEST>;

// Inner: hands each line of a reader, without its line end, to `answer`, with what gathers for standard output; also a line that ends with the input, or
// with a read that fails. What has gathered is written before each read, which may wait. `false` where a read has failed. There is no heap: of what
// is read a block is held, and of a line its first bytes.
pub fn answer_lines<R, F>(mut reader: R, stdout: Stdout, mut answer: F) -> bool
where
    R: Read + Drop,
    F: FnMut(&mut Out, &[u8]),
    requires { (f : F) (out : _) (line : _) → length line.now ≤ 512 → F.pre f out line }
{
    let mut out = Out::new(stdout);
    let mut begun = Begun::new();
    let mut block = [0; BLOCK];
    for _ in 0..u64::MAX {
        let read = reader.read(&mut block);
        let Ok(n @ 1..) = read else {
            if !begun.is_empty() {
                answer(&mut out, &begun);
            }
            let _ = out.flush();
            return read.is_ok();
        };
        for part in block[..n].split_inclusive(|b| *b == b'\n') {
            match part {
                [whole @ .., b'\n'] => {
                    hold(&mut begun, whole);
                    answer(&mut out, &begun);
                    begun.clear();
                }
                cut_off => {
                    hold(&mut begun, cut_off);
                }
            }
        }
        let _ = out.flush();
    }
    true
}
