// The row of a node: the lines that leave it.
ghost use Rattle.std.specs.Prelude.{◌≡◌, OnErr, Some, codes};
ghost use Rattle.std.specs.Result.{is_ok};
ghost use Rattle.rows.specs.Pushing.{has_room, pushed, lines_with};
ghost use Rattle.rows.specs.Rows.{lines_in, no_row};

use std::error::Error;
use std::fmt;
use wire::lines::Line;

// At most 8 lines: the first `used` of `lines`. What stands behind them means nothing. An array and a count, since rows are
// copied with what holds them and the library allocates nothing.
#[derive(Clone, Copy, Debug, Default, PartialEq, Eq)]
pub struct Row {
    pub lines: [Line; 8],
    pub used: u8,
}

// A row has 8 lines and takes no more.
#[derive(Clone, Copy, Debug, PartialEq, Eq)]
pub struct RowFull;

impl fmt::Display for RowFull {
    ghost output = { λ _. Some (codes "the row is full") };

    fn fmt<W: fmt::Write>(&self, f: &mut fmt::Formatter<W>) -> fmt::Result {
        write!(f, "the row is full")
    }
}

impl Error for RowFull {}

impl Row {
    // No line.
    pub fn new() -> Row
        ensures { result ≡ no_row }
    {
        Row::default()
    }

    // The lines.
    pub fn lines(&self) -> &[Line]
        ensures { result.now ≡ lines_in self.now }
    {
        self.lines
            .get(..usize::from(self.used))
            .unwrap_or(&self.lines)
    }

    // Puts a line behind the others, if there is room for it.
    pub fn push(&mut self, line: Line) -> Result<(), RowFull>
        ensures room { is_ok result ≡ has_room self.old }
        ensures row { self.new ≡ pushed self.old line }
        ensures lines { lines_in self.new ≡ lines_with self.old line }
        ensures refused { OnErr result (self.new ≡ self.old) }
    {
        if self.used >= 8 {
            return Err(RowFull);
        }
        self.lines[usize::from(self.used)] = line;
        self.used += 1;
        Ok(())
    }
}
