// How often a number stands in a list, tests that tell a fact both ways, the elements of a list joined, and the refusals of a call by number: their laws,
// the function that counts a list, and the one that asks a condition.
#![tactic(auto)]

ghost use Rattle.std.specs.Prelude.{◌≡◌, ◌≤◌, ℕ, List, get_or, take, is_some, if◌then◌else◌, Some, Ok, Err};
ghost use Rattle.counting.specs.Times.{times};
ghost use Rattle.counting.specs.Lists.{once_below};

// Inner: how often each number stands among the first n of the list, where each is below N and stands there one time.
pub fn counted<const N: usize>(list: &[u32; N], n: usize) -> Option<[u8; N]>
    requires { N ≤ 512 }
    ensures known { is_some result ≡ once_below N list.now n }
    ensures counts { (counts : List ℕ) → result ≡ Some counts → (x : ℕ) → get_or counts x 0 ≡ times x (take n list.now) }
{
    if n > N {
        return None;
    }
    let mut counts = [0u8; N];
    for slot in &list[..n] {
        let x = *slot as usize;
        if x >= N || counts[x] != 0 {
            return None;
        }
        counts[x] = 1;
    }
    Some(counts)
}

// One condition of a call: refused with `refusal` where it does not hold.
pub fn check<E: Copy>(holds: bool, refusal: E) -> Result<(), E>
    ensures { result ≡ (if holds then Ok tt else Err refusal) }
{
    if holds { Ok(()) } else { Err(refusal) }
}
