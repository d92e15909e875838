// The words of a line, one space apart, read one after the other.
ghost use Rattle.std.specs.Prelude.{◌≡◌, ◌↔◌, [], ◌∷◌, drop, IsTrue, IfSome, MatchOption};
ghost use Rattle.text_lines.specs.spelling.Words.{pattern_of};
ghost use Rattle.text_lines.specs.words.Lines as spec;

use crate::spelling;
use std::str::FromStr;

// The words of a line that are still to be read: those of `rest`, if there is one.
#[derive(Clone, Copy)]
pub struct Words<'a> {
    rest: Option<&'a [u8]>,
}

// The f64 whose bits a word spells.
pub fn number(word: &[u8]) -> Option<f64>
    ensures { result ≡ spec.number_of (pattern_of word.now) }
{
    spelling::pattern(word).map(spelling::float)
}

// Inner: a whole number, in decimal digits with no zero in front, and no -0.
pub fn whole<T: FromStr>(word: &[u8]) -> Option<T>
where
    T::Err: Drop,
{
    match word {
        [b'0'] | [b'1'..=b'9', ..] | [b'-', b'1'..=b'9', ..] => {
            std::str::from_utf8(word).ok()?.parse().ok()
        }
        _ => None,
    }
}

// Inner: two whole numbers, as `index:generation`.
pub fn pair(word: &[u8]) -> Option<(u32, u32)> {
    let mut halves = word.splitn(2, |b| *b == b':');
    Some((whole(halves.next()?)?, whole(halves.next()?)?))
}

impl<'a> Words<'a> {
    pub fn new(line: &'a [u8]) -> Words<'a>
        ensures { spec.left result ≡ spec.words line.now }
    {
        Words { rest: Some(line) }
    }

    // The next word: it ends at a space, or where the line ends.
    pub fn next(&mut self) -> Option<&'a [u8]>
        ensures { MatchOption result ((spec.left self.old ≡ []) × (spec.left self.new ≡ [])) (λ w. spec.left self.old ≡ w.now ∷ spec.left self.new) }
    {
        let line = self.rest?;
        let end = byte_search::find(line, 0, line.len(), b' ');
        if end >= line.len() {
            self.rest = None;
            return Some(line);
        }
        self.rest = Some(&line[end + 1..]);
        Some(&line[..end])
    }

    // No word is left.
    pub fn is_empty(&self) -> bool
        ensures { IsTrue result ↔ (spec.left self.now ≡ []) }
    {
        self.rest.is_none()
    }

    pub fn number(&mut self) -> Option<f64>
        ensures value { result ≡ spec.number (spec.left self.old) }
        ensures rest { spec.left self.new ≡ drop 1 (spec.left self.old) }
    {
        number(self.next()?)
    }

    // Four f64 in a row.
    #[tactic(auto, unfolding(crate::specs::words::Lines::four))]
    pub fn four(&mut self) -> Option<[f64; 4]>
        ensures value { result ≡ spec.four (spec.left self.old) }
        ensures rest { IfSome result (λ xs. spec.left self.new ≡ drop 4 (spec.left self.old)) }
    {
        let a = self.number()?;
        let b = self.number()?;
        let c = self.number()?;
        let d = self.number()?;
        Some([a, b, c, d])
    }

    // Inner: the same of the next word.
    pub fn whole<T: FromStr>(&mut self) -> Option<T>
    where
        T::Err: Drop,
    {
        whole(self.next()?)
    }

    // Inner: the same of the next word.
    pub fn pair(&mut self) -> Option<(u32, u32)> {
        pair(self.next()?)
    }
}
