ghost use Rattle.std.specs.Prelude.{◌≡◌};
ghost use Rattle.forwarding.specs.Courses.{course_of, walk};
ghost use Rattle.forwarding.specs.Arrival.{Arriving, Absent};
ghost use Rattle.forwarding.specs.Going.{Going};

use super::next_hops::NextHops;
use super::walk::{End, Walk};

// Asks each node on the way for its next hop towards the destination, and goes there.
pub fn forward<N: NextHops>(network: &N, from: u8, to: u8) -> Walk
    ensures value { course_of result ≡ walk (N.shows network.now) (N.nodes network.now) from to }
    ensures going { Going (N.shows network.now) (N.nodes network.now) from to (course_of result) }
    ensures arrives { Arriving (N.shows network.now) (N.nodes network.now) from to (course_of result) }
    ensures absent { Absent (N.shows network.now) (N.nodes network.now) from to (course_of result) }
{
    let limit = network.count().min(64) as u8;
    let mut nodes = [0; 65];
    nodes[0] = from;
    let mut at = from;
    for made in 0..limit {
        if at == to {
            return Walk {
                nodes,
                made,
                end: End::Arrived,
            };
        }
        let hop = network.next_hop(at, to);
        if hop == 0 {
            return Walk {
                nodes,
                made,
                end: End::Lost,
            };
        }
        at = hop;
        nodes[usize::from(made) + 1] = at;
    }
    let end = if at == to { End::Arrived } else { End::Loop };
    Walk {
        nodes,
        made: limit,
        end,
    }
}
