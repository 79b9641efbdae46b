// The largest map, with random lines: 64 nodes, 8 lines each.
ghost use Rattle.std.specs.Prelude.{◌<◌};

use random::Random;
use rows::Row;
use spf::map::Map;
use wire::lines::Line;

// A node among 8 that begin behind `before`, but not this one.
fn neighbour_of(random: &mut Random, node: u8, before: u8) -> u8
    requires { before < 64 }
{
    let chosen = random.below(8) as u8;
    if before + chosen + 1 == node {
        before + (chosen + 1) % 8 + 1
    } else {
        before + chosen + 1
    }
}

// One line into each 8 nodes, with figures from 1 to 1000. A push for each, as the generator gives them.
fn row(random: &mut Random, node: u8) -> Option<Row> {
    let mut row = Row::new();
    for eighth in 0..8 {
        let neighbour = neighbour_of(random, node, eighth * 8);
        let figure = random.below(1000) + 1;
        row.push(Line { neighbour, figure }).ok()?;
    }
    Some(row)
}

// The map; none if a row of it were refused.
pub(crate) fn full_map() -> Option<Map> {
    let mut random = Random::new();
    let mut map = Map::new(64)?;
    for node in 1..=64 {
        let row = row(&mut random, node)?;
        map.replace(node, &row).ok()?;
    }
    Some(map)
}
