ghost use Rattle.metric_example.specs.WorstFirst.{WorstFirst, worst_first, Reversed, Lawless};

// A tempting metric: the smallest worst figure first, then the fewest lines. Five lines of 3 are better than one line of
// 5; put a further line of 9 behind both, and the one line is better. The third law forbids that, since a least path
// has to be made of least paths. No proof of the laws can be had, however the costs are written, so an `impl Metric` of
// it is refused.
pub fn worst_first_is_refused()
    ensures written { WorstFirst worst_first }
    ensures reversed { Reversed }
    ensures lawless { Lawless }
{}
