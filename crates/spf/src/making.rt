// A map without lines, and a row put in.
ghost use Rattle.std.specs.Prelude.{◌≡◌, Some, MatchResult};
ghost use Rattle.std.specs.Option.{option_map};
ghost use Rattle.spf.specs.Making.{said_of, parts_of, new_map, replace_answer, replaced, Bare, Replaced};
ghost use Rattle.spf.specs.Model.{map_of};

use crate::map::Map;
use rows::Row;
use std::error::Error;
use std::fmt;

// Why a row was not put in.
#[derive(Clone, Copy, Debug, PartialEq, Eq)]
pub enum MapFault {
    // The number is no node's.
    NoNode,
    // The row may not be the row of this node.
    NotAllowed,
}

impl fmt::Display for MapFault {
    ghost output = { λ fault. Some (said_of fault) };

    fn fmt<W: fmt::Write>(&self, f: &mut fmt::Formatter<W>) -> fmt::Result {
        match self {
            MapFault::NoNode => write!(f, "the number is no node's"),
            MapFault::NotAllowed => write!(f, "the row may not be the node's"),
        }
    }
}

impl Error for MapFault {}

impl Map {
    // A map of so many nodes without a line; none unless they are 1 to 64.
    pub fn new(count: u8) -> Option<Map>
        ensures value { option_map parts_of result ≡ new_map count }
        ensures law { Bare count (option_map map_of result) }
    {
        // Two comparisons, here and below: what holds behind them is asked of the number and not of a range.
        if count < 1 || count > 64 {
            return None;
        }
        Some(Map {
            count,
            rows: [Row::new(); 64],
        })
    }

    // Puts a row in the place of a node's row.
    pub fn replace(&mut self, node: u8, row: &Row) -> Result<(), MapFault>
        ensures answer { result ≡ replace_answer (parts_of self.old) node row.now }
        ensures parts { parts_of self.new ≡ replaced (parts_of self.old) node row.now }
        ensures law { MatchResult result (λ _. Replaced node row.now (map_of self.old) (map_of self.new)) (λ _. map_of self.new ≡ map_of self.old) }
    {
        if node < 1 || node > self.count {
            return Err(MapFault::NoNode);
        }
        if !row.allowed(self.count, node) {
            return Err(MapFault::NotAllowed);
        }
        self.rows[usize::from(node) - 1] = *row;
        Ok(())
    }
}
