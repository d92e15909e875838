// The lines of one kind that a sheet has, in memory of a fixed size: they are copied with the sheet.
ghost use Rattle.std.specs.Prelude.{⊤, ◌≡◌, [], ◌∷◌, ◌++◌, ◌<◌, ◌≤◌, length};

use std::alloc::AllocError;

// The first `count` rows are the lines, in order; what stands behind them has no meaning.
#[derive(Copy, Drop)]
pub struct Lines<L, const MOST: usize> {
    pub rows: [L; MOST],
    pub count: usize,
    pub ghost few: { count ≤ MOST },
}

// By hand, since no derive stands over a ghost field.
impl<L: Copy, const MOST: usize> Clone for Lines<L, MOST> {
    ghost is_clone = { λ lines copy. copy ≡ lines };

    ghost is_infallible = { λ lines. ⊤ };

    fn clone(&self) -> Result<Self, AllocError> {
        Ok(*self)
    }
}

impl<L: Copy, const MOST: usize> Lines<L, MOST> {
    ghost use Rattle.sheet_format.specs.Lines.{items};

    // No line.
    pub fn new() -> Self
    where
        L: Default,
        ensures { items result ≡ [] }
    {
        Lines {
            rows: [L::default(); MOST],
            count: 0,
        }
    }

    // The lines.
    pub fn as_slice(&self) -> &[L]
        ensures value { result.now ≡ items self.now }
        ensures fits { length result.now ≤ MOST }
    {
        &self.rows[..self.count]
    }

    // How many lines there are.
    pub fn len(&self) -> usize
        ensures value { result ≡ length (items self.now) }
        ensures fits { result ≤ MOST }
    {
        self.as_slice().len()
    }

    // Inner: appends a line, for which there is room.
    pub fn push(&mut self, line: L)
        requires { length (items self.old) < MOST }
        ensures { items self.new ≡ items self.old ++ line ∷ [] }
    {
        let count = self.count;
        self.rows[count] = line;
        self.count = count + 1;
    }
}
