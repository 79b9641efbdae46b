// A map as large as a map can be: a line of figure 10 leads from each of 64 nodes to the 8 that lie ahead of it in a ring.
ghost use Rattle.std.specs.Prelude.{◌<◌, ◌≤◌};

use metric::Delay;
use rows::Row;
use rows::places::place;
use spf::map::Map;
use spf::route::{Route, Tree};
use spf_tree::shortest_paths;
use wire::lines::Line;

// How far a node lies ahead of another.
fn ahead(from: u8, to: u8) -> u8
    ensures { result < 64 }
{
    to.wrapping_sub(from) % 64
}

fn joined(from: u8, to: u8) -> bool {
    (1..=8).contains(&ahead(from, to))
}

// How many lines the shortest path has: one for each 8 nodes, or part of 8.
fn lines_between(from: u8, to: u8) -> u8
    ensures { result ≤ 8 }
{
    (ahead(from, to) + 7) / 8
}

// The lowest-numbered node one line before this one; 0 for the root. It and the hop are reckoned from the ring alone: a test that
// shared them with others would lean on what it tests.
fn parent(root: u8, node: u8) -> u8 {
    (1..=64)
        .find(|from| {
            joined(*from, node) && lines_between(root, *from) + 1 == lines_between(root, node)
        })
        .unwrap_or(0)
}

// The next hop to a node, from that to its parent.
fn hop(tree: &Tree, root: u8, node: u8, parent: u8) -> u8 {
    if parent == root {
        return node;
    }
    tree.get(place(parent)).map_or(0, |route| route.hop)
}

// A push for each line: a row has no other way in, and the lines are the ring's own.
fn row(node: u8) -> Option<Row> {
    let mut row = Row::new();
    for neighbour in 1..=64 {
        if joined(node, neighbour) {
            row.push(Line {
                neighbour,
                figure: 10,
            })
            .ok()?;
        }
    }
    Some(row)
}

fn ring() -> Option<Map> {
    let mut map = Map::new(64)?;
    for node in 1..=64 {
        map.replace(node, &row(node)?).ok()?;
    }
    Some(map)
}

// Whether each route of the tree of a root is as known.
fn goes_round(tree: &Tree, root: u8) -> bool {
    (1..=64).zip(tree).all(|(node, route)| {
        let parent = parent(root, node);
        let distance = u64::from(lines_between(root, node)) * 10;
        *route == Route::new(distance, parent, hop(tree, root, node, parent))
    })
}

fn all_go_round() -> Option<bool> {
    let map = ring()?;
    for root in 1..=64 {
        let tree = shortest_paths(&Delay, &map, root)?;
        if map.lines_from(root).len() != 8 || !goes_round(&tree, root) {
            return Some(false);
        }
    }
    Some(true)
}

#[test]
fn full_map(rt: HostRuntime) {
    assert_eq!(rt; all_go_round(), Some(true));
}
