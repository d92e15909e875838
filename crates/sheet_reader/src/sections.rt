// The sections of a sheet: a count, and as many lines of one kind.
ghost use Rattle.std.specs.Prelude.{◌≡◌, [], ◌≤◌, IfOk};
ghost use Rattle.sheet_format.specs.Sheet as spec;
ghost use Rattle.sheet_format.specs.Told.{told_lines, told_count};
ghost use Rattle.sheet_reader.specs.Ahead.{ahead};

use crate::Reader;
use crate::lines::{self, SheetLine};
use sheet_format::lines::Lines;
use sheet_format::{Refusal, Refused};

impl<'a> Reader<'a> {
    // A count, the line `line`: one number, from 0 to `most`.
    fn count(&mut self, most: usize, line: usize) -> Result<usize, Refused>
        requires { most ≤ spec.most_lines }
        ensures value { told_count (ahead self.new) result ≡ spec.section (spec.count_rule most) 1 [] line (ahead self.old) }
        ensures within { IfOk result (λ n. n ≤ most) }
    {
        let Some(row) = self.line(1) else {
            return Err(Refused {
                why: Refusal::Malformed,
                line,
            });
        };
        let count = row[0];
        if !lines::within(0, most as i64, count) {
            return Err(Refused {
                why: Refusal::OutOfRange,
                line,
            });
        }
        Ok(count as usize)
    }

    // So many lines of one kind, the first of them the line `first`, on a sheet of so many places.
    fn lines<L: SheetLine, const MOST: usize>(
        &mut self,
        count: usize,
        places: usize,
        first: usize,
    ) -> Result<Lines<L, MOST>, Refused>
        requires room { count ≤ MOST }
        requires few { count ≤ spec.most_lines }
        requires places { places ≤ spec.most_lines }
        requires early { first ≤ 3000 }
        ensures { told_lines L.numbers (ahead self.new) result ≡ spec.section (L.rule places) count [] first (ahead self.old) }
    {
        let mut lines: Lines<L, MOST> = Lines::new();
        for line in first..first + count {
            let Some(row) = self.line(L::WIDTH) else {
                return Err(Refused {
                    why: Refusal::Malformed,
                    line,
                });
            };
            let found = L::of_row(&row);
            if !found.is_in_range() {
                return Err(Refused {
                    why: Refusal::OutOfRange,
                    line,
                });
            }
            if !found.fits(lines.as_slice(), places) {
                return Err(Refused {
                    why: Refusal::BadPlace,
                    line,
                });
            }
            lines.push(found);
        }
        Ok(lines)
    }

    // Inner: a count, the line `line`, and as many lines of one kind.
    pub(crate) fn counted<L: SheetLine, const MOST: usize>(
        &mut self,
        most: usize,
        places: usize,
        line: usize,
    ) -> Result<Lines<L, MOST>, Refused>
        requires room { most ≤ MOST }
        requires few { most ≤ spec.most_lines }
        requires places { places ≤ spec.most_lines }
        requires early { line ≤ 2000 }
        ensures { told_lines L.numbers (ahead self.new) result ≡ spec.counted (L.rule places) most line (ahead self.old) }
    {
        let count = self.count(most, line)?;
        self.lines(count, places, line + 1)
    }
}
