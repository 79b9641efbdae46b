// A line as a report has it, and the walk over the pairs of bytes that hold the lines.
ghost use Rattle.std.specs.Prelude.{◌≡◌, [], ◌∷◌, length, MatchOption};
ghost use Rattle.wire.specs.Lines.{lines_of, line_bytes};
ghost use Rattle.std.specs.Iterator.{at_most};

// A line to a neighbour, with its delay in units of 0.1 ms.
#[derive(Clone, Copy, Debug, PartialEq, Eq, Default)]
pub struct Line {
    pub neighbour: u8,
    pub figure: u16,
}

// The line as its three bytes.
impl From<Line> for [u8; 3] {
    ghost from_gives = { λ line bytes. bytes ≡ line_bytes line };

    fn from(line: Line) -> [u8; 3] {
        let [high, low] = line.figure.to_be_bytes();
        [line.neighbour, high, low]
    }
}

// The line that three bytes hold.
impl From<[u8; 3]> for Line {
    ghost from_gives = { λ bytes line. line ∷ [] ≡ lines_of bytes };

    fn from(bytes: [u8; 3]) -> Line {
        let [neighbour, high, low] = bytes;
        Line {
            neighbour,
            figure: u16::from_be_bytes([high, low]),
        }
    }
}

// What is left of the pairs of a report; an iterator over their lines.
#[derive(Clone, Copy, Debug, PartialEq, Eq)]
pub struct Lines<'a> {
    rest: &'a [u8],
}

impl<'a> Lines<'a> {
    // The lines that `pairs` hold, three bytes to a line.
    pub(crate) fn of(pairs: &'a [u8]) -> Lines<'a>
        ensures { result.rest ≡ pairs.entry }
    {
        Lines { rest: pairs }
    }
}

impl<'a> Iterator for Lines<'a> {
    type Item = Line;

    ghost next_gives = { λ s r t. MatchOption r ((lines_of s.rest.now ≡ []) × (t ≡ s)) (λ x. lines_of s.rest.now ≡ x ∷ lines_of t.rest.now) };

    ghost remaining = { λ s. at_most (length s.rest.now) };

    fn next(&mut self) -> Option<Line> {
        let (line, rest) = self.rest.split_first_chunk::<3>()?;
        self.rest = rest;
        Some(Line::from(*line))
    }
}
