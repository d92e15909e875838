// The first place of a byte in a slice, and the copy of as many bytes as fit.
#![tactic(auto)]

ghost use Rattle.std.specs.Prelude.{◌≡◌, ◌+◌, ◌≤◌, ◌++◌, length, take, drop, min};
ghost use Rattle.byte_search.specs.Bytes.{slice, index_of};

// Inner: the first index in from..to at which `s` has `b`, else `to`.
pub fn find(s: &[u8], from: usize, to: usize, b: u8) -> usize
    requires from_le_to { from ≤ to }
    requires to_in_bounds { to ≤ length s.now }
    ensures value { result ≡ from + index_of b (slice from to s.now) }
    ensures low { from ≤ result }
    ensures high { result ≤ to }
{
    for i in from..to {
        if s[i] == b {
            return i;
        }
    }
    to
}

// Copies what fits of `src` to the front of `dst`, and answers how many bytes that is.
pub fn copy(src: &[u8], dst: &mut [u8]) -> usize
    ensures value { result ≡ min (length src.now) (length dst.old) }
    ensures copied { dst.new ≡ take result src.now ++ drop result dst.old }
{
    let n = usize::min(src.len(), dst.len());
    dst[..n].copy_from_slice(&src[..n]);
    n
}
