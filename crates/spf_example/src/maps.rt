// Small random maps.
use random::Random;
use rows::Row;
use spf::map::Map;
use wire::lines::Line;

// A row with a line to about half of the other nodes, four lines at most. Figures are small, so that equal costs are common.
// A push for each line, as the generator gives them.
fn small_row(random: &mut Random, count: u8, node: u8) -> Option<Row> {
    let mut row = Row::new();
    for neighbour in 1..=count {
        let figure = random.below(4) + 1;
        if neighbour != node && row.used < 4 && random.below(2) == 0 {
            row.push(Line { neighbour, figure }).ok()?;
        }
    }
    Some(row)
}

// A map of 2 to 6 nodes; none if a row of it were refused.
pub(crate) fn small_map(random: &mut Random) -> Option<Map> {
    let count = random.below(5) as u8 + 2;
    let mut map = Map::new(count)?;
    for node in 1..=count {
        let row = small_row(random, count, node)?;
        map.replace(node, &row).ok()?;
    }
    Some(map)
}
