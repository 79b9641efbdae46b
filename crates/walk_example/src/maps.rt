// Every map of three nodes whose figures are 1 or 2. Ways of equal cost are common there.
use rows::Row;
use spf::map::Map;
use wire::lines::Line;

// Each of the six lines is absent, or has a figure of 1 or 2.
pub(crate) const MAPS: u16 = 729;

// The row of a node, from two digits in the base 3: the figures of its two lines, 0 for no line. A push
// for each line, since the digits say one by one which there are.
fn row(node: u8, digits: u16) -> Option<Row> {
    let mut row = Row::new();
    let mut rest = digits;
    for neighbour in 1..=3 {
        if neighbour != node {
            let figure = rest % 3;
            rest /= 3;
            if figure != 0 {
                row.push(Line { neighbour, figure }).ok()?;
            }
        }
    }
    Some(row)
}

// The map of a number: its six digits in the base 3, two for each node. None if a row of it were refused.
pub(crate) fn map_of(number: u16) -> Option<Map> {
    let mut map = Map::new(3)?;
    map.replace(1, &row(1, number % 9)?).ok()?;
    map.replace(2, &row(2, number / 9 % 9)?).ok()?;
    map.replace(3, &row(3, number / 81)?).ok()?;
    Some(map)
}
