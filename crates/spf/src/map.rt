// The map of a network.
ghost use Rattle.std.specs.Prelude.{◌≡◌, ◌≤◌, true};
ghost use Rattle.spf.specs.Rows.{allowed_rows};

use rows::Row;

// A map: the count of the nodes, 1 to 64, and the row of lines that leave each. A row has at most 8 lines, at most one to any
// neighbour; neighbours are nodes of the map, and no figure is 0.
#[derive(Clone, Copy, Debug, PartialEq, Eq)]
pub struct Map {
    pub(crate) count: u8,
    pub(crate) rows: [Row; 64],
    ghost some: { 1 ≤ count },
    ghost few: { count ≤ 64 },
    ghost allowed: { allowed_rows count 1 rows ≡ true },
}
