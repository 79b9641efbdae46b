// The network of four.
use metric::{Delay, FewestLines, Metric};
use rows::Row;
use spf::changes::changed;
use spf::map::Map;
use spf::route::Route;
use spf_tree::shortest_paths;
use std::cmp::Ordering;
use wire::lines::Line;

// A push for each line, as in every test that makes rows: where the lines come from is its own.
fn row(lines: &[(u8, u16)]) -> Option<Row> {
    let mut row = Row::new();
    for (neighbour, figure) in lines {
        row.push(Line {
            neighbour: *neighbour,
            figure: *figure,
        })
        .ok()?;
    }
    Some(row)
}

// Lines 1 to 2 and 2 to 4 as given, 1 to 3 at 500, 2 to 1 at 200, 2 to 3 at 300, 3 to 1 at 500 and 3 to 4 at 150; none leaves 4.
fn four(to_two: u16, to_four: u16) -> Option<Map> {
    let mut map = Map::new(4)?;
    map.replace(1, &row(&[(2, to_two), (3, 500)])?).ok()?;
    map.replace(2, &row(&[(1, 200), (3, 300), (4, to_four)])?)
        .ok()?;
    map.replace(3, &row(&[(1, 500), (4, 150)])?).ok()?;
    Some(map)
}

// Whether the tree of a root has these routes to the four nodes; none if there is no tree.
fn routes_are<M: Metric>(metric: &M, to_four: u16, root: u8, routes: [Route; 4]) -> Option<bool> {
    let tree = shortest_paths(metric, &four(200, to_four)?, root)?;
    Some(tree[..4] == routes[..] && tree[4] == Route::default())
}

#[test]
fn delays_of_four(rt: HostRuntime) {
    let one = [
        Route::new(0, 0, 0),
        Route::new(200, 1, 2),
        Route::new(500, 1, 3),
        Route::new(650, 2, 2),
    ];
    assert_eq!(rt; routes_are(&Delay, 450, 1, one), Some(true));
}

// No line leaves node 4.
#[test]
fn delays_of_the_last(rt: HostRuntime) {
    let four = [
        Route::default(),
        Route::default(),
        Route::default(),
        Route::new(0, 0, 0),
    ];
    assert_eq!(rt; routes_are(&Delay, 450, 4, four), Some(true));
}

#[test]
fn fewest_lines_of_four(rt: HostRuntime) {
    let one = [
        Route::new(0, 0, 0),
        Route::new(65_736, 1, 2),
        Route::new(66_036, 1, 3),
        Route::new(131_522, 2, 2),
    ];
    assert_eq!(rt; routes_are(&FewestLines, 450, 1, one), Some(true));
}

// Node 2 then reports 4 at 600.
#[test]
fn a_slower_line_of_four(rt: HostRuntime) {
    let one = [
        Route::new(0, 0, 0),
        Route::new(200, 1, 2),
        Route::new(500, 1, 3),
        Route::new(650, 3, 3),
    ];
    assert_eq!(rt; routes_are(&Delay, 600, 1, one), Some(true));
}

// The changed count at root 1, from the network as it was, after the lines 1 to 2 and 2 to 4 take these figures.
fn changed_by(to_two: u16, to_four: u16) -> Option<u8> {
    let before = shortest_paths(&Delay, &four(200, 450)?, 1)?;
    let after = shortest_paths(&Delay, &four(to_two, to_four)?, 1)?;
    Some(changed(&before, &after))
}

#[test]
fn one_route_of_four_changes(rt: HostRuntime) {
    assert_eq!(rt; changed_by(200, 600), Some(1));
}

// With 1 to 2 faster than 200, all go by node 2, at other distances; slower, node 2 is further and node 4 goes by node 3.
fn count_by_hand(to_two: u16) -> u8 {
    match to_two.cmp(&200) {
        Ordering::Less => 3,
        Ordering::Equal => 0,
        Ordering::Greater => 2,
    }
}

#[test]
fn changed_routes_are_counted(rt: HostRuntime) {
    for to_two in 1..=700 {
        assert_eq!(rt; changed_by(to_two, 450), Some(count_by_hand(to_two)));
    }
}
