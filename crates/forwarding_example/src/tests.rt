// Trees, the walks over them, and how these end.
use forwarding::{End, Trees, forward};
use spf::route::{Route, Tree};

// The tree of a node among four.
fn tree(routes: [Route; 4]) -> Tree {
    let mut tree = [Route::default(); 64];
    tree[..4].copy_from_slice(&routes);
    tree
}

// Lines 1 to 2 at 200, 1 to 3 at 500, 2 to 1 at 200, 2 to 3 at 300, 2 to 4 at 450, 3 to 1 at 500 and 3 to 4 at 150; none leaves 4.
fn four() -> [Tree; 4] {
    [
        tree([
            Route::new(0, 0, 0),
            Route::new(200, 1, 2),
            Route::new(500, 1, 3),
            Route::new(650, 2, 2),
        ]),
        tree([
            Route::new(200, 2, 1),
            Route::new(0, 0, 0),
            Route::new(300, 2, 3),
            Route::new(450, 2, 4),
        ]),
        tree([
            Route::new(500, 3, 1),
            Route::new(700, 1, 1),
            Route::new(0, 0, 0),
            Route::new(150, 3, 4),
        ]),
        tree([
            Route::default(),
            Route::default(),
            Route::default(),
            Route::new(0, 0, 0),
        ]),
    ]
}

// Nodes 1 and 2 each take the other for the next hop to 3.
fn ring() -> [Tree; 3] {
    let lost = [Route::default(); 64];
    let mut one = lost;
    one[2] = Route::new(3, 2, 2);
    let mut two = lost;
    two[2] = Route::new(2, 1, 1);
    [one, two, lost]
}

#[test]
fn walks_of_four(rt: HostRuntime) {
    let trees = four();
    let network = Trees { trees: &trees };
    let walk = forward(&network, 1, 4);
    assert_eq!(rt; walk.end(), End::Arrived);
    assert!(rt; walk.nodes() == [1, 2, 4].as_slice());
    assert!(rt; forward(&network, 3, 2).hops() == [1, 2].as_slice());
    assert!(rt; forward(&network, 4, 1).nodes() == [4].as_slice());
    assert_eq!(rt; forward(&network, 4, 1).end(), End::Lost);
    assert_eq!(rt; forward(&network, 9, 9).end(), End::Arrived);
}

#[test]
fn walks_in_a_ring(rt: HostRuntime) {
    let trees = ring();
    let network = Trees { trees: &trees };
    let walk = forward(&network, 1, 3);
    assert_eq!(rt; walk.end(), End::Loop);
    assert!(rt; walk.nodes() == [1, 2, 1, 2].as_slice());
    assert_eq!(rt; forward(&network, 3, 1).end(), End::Lost);
}
