// The sheet reader: one thing that holds the bytes and its place in them, and what it reads there by line, by section and whole.
#![tactic(auto)]

// What a section's line is, and when it is refused.
pub mod lines;
// A section: a count, and as many lines of one kind.
pub mod sections;

ghost use Rattle.std.specs.Prelude.{◌≡◌, length};
ghost use Rattle.sheet_lines.specs.Saturated.{first_fields, told_first};
ghost use Rattle.sheet_format.specs.Sheet.{read_sheet};
ghost use Rattle.sheet_format.specs.Told.{told};
ghost use Rattle.sheet_reader.specs.Ahead.{ahead, moved};

use sheet_format::{MOST_PLACES, MOST_TAPS, Parsed, Refusal, Refused};
use sheet_lines::LINE_WIDTH;

// The most bytes of a sheet.
const MOST_BYTES: usize = 65_536;

#[derive(Clone, Copy)]
pub struct Reader<'a> {
    pub src: &'a [u8],
    pub at: usize,
}

impl<'a> Reader<'a> {
    pub fn new(src: &'a [u8], at: usize) -> Reader<'a>
        ensures src { result.src ≡ src.entry }
        ensures at { result.at ≡ at }
    {
        Reader { src, at }
    }

    // How many bytes there are from the reader's place on.
    fn left(&self) -> usize
        ensures { result ≡ length (ahead self.now) }
    {
        self.src.len().saturating_sub(self.at)
    }

    // The numbers of the line of `width` numbers at the reader's place, in the first places of a row, if it is one. No line has more than LINE_WIDTH.
    // The reader goes behind the line, whether or not it is one, or stays where there is no LF ahead. What the row holds behind `width` is the
    // program's choice.
    pub fn line(&mut self, width: usize) -> Option<[i64; LINE_WIDTH]>
        ensures numbers { told_first width (ahead self.new) result ≡ first_fields width (ahead self.old) }
        ensures place { self.new ≡ moved self.old }
    {
        let found = sheet_lines::fields_at(self.src, self.at, width);
        self.at = found.next;
        found.row
    }

    // The sheet at the reader's place, or why it is refused.
    pub fn sheet(mut self) -> Result<Parsed, Refused>
        ensures { told result ≡ read_sheet (ahead self.entry) }
    {
        if self.left() > MOST_BYTES {
            return Err(Refused {
                why: Refusal::TooLong,
                line: 0,
            });
        }
        let places = self.counted(MOST_PLACES, 0, 1)?;
        let n = places.len();
        let clips = self.counted(n, n, 2 + n)?;
        let m = n + clips.len();
        let taps = self.counted(MOST_TAPS, n, 3 + m)?;
        if self.left() > 0 {
            return Err(Refused {
                why: Refusal::Trailing,
                line: 4 + m + taps.len(),
            });
        }
        Ok(Parsed {
            places,
            clips,
            taps,
        })
    }
}

// The sheet that some bytes are, or why they are refused.
pub fn read_sheet(s: &[u8]) -> Result<Parsed, Refused>
    ensures { told result ≡ read_sheet s.now }
{
    Reader::new(s, 0).sheet()
}
