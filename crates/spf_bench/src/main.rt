// How long a tree takes: the trees of all roots of the largest map, four times over, and a sum over them all, so that none
// of the work can be left out.
//
//   map.rt   the map: 64 nodes, 8 lines each

#![tactic(auto)]

mod map;

use map::full_map;
use metric::Delay;
use spf::route::Tree;
use spf_tree::shortest_paths;

// How often each root has its turn.
const ROUNDS: u8 = 4;

// One number from a sum and all routes of a tree.
fn sum_over(start: u64, tree: &Tree) -> u64 {
    tree.iter().fold(start, |sum, route| {
        sum.wrapping_mul(31)
            .wrapping_add(route.distance.unwrap_or(0))
            .wrapping_mul(31)
            .wrapping_add(u64::from(route.parent))
            .wrapping_mul(31)
            .wrapping_add(u64::from(route.hop))
    })
}

fn main(rt: HostRuntime) -> anyhow::Result<()> {
    let mut sum = 0;
    if let Some(map) = full_map() {
        for _ in 0..ROUNDS {
            for root in 1..=64 {
                if let Some(tree) = shortest_paths(&Delay, &map, root) {
                    sum = sum_over(sum, &tree);
                }
            }
        }
    }
    println!(rt; "{sum}")?;
    Ok(())
}
