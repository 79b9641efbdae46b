// Whether a row may be the row of a node.
ghost use Rattle.std.specs.Prelude.{◌≡◌, true};
ghost use Rattle.rows.specs.Rows.{lines_in, allowed_row, figures_fit};

use crate::row::Row;

impl Row {
    // Whether this may be the row of this node, in a network of so many nodes. The reader of reports asks alike of a report's
    // lines, but there each no has a number and a place.
    pub fn allowed(&self, count: u8, node: u8) -> bool
        ensures value { result ≡ allowed_row count node self.now }
        ensures fits { result ≡ true → figures_fit (lines_in self.now) ≡ true }
    {
        let mut previous = 0;
        for line in self.lines() {
            if line.neighbour <= previous
                || line.neighbour > count
                || line.neighbour == node
                || line.figure == 0
            {
                return false;
            }
            previous = line.neighbour;
        }
        self.used <= 8
    }
}
