// The timers of the reports that were sent and may have to be sent again.
ghost use Rattle.std.specs.Prelude.{◌≡◌, ℕ, ◌<◌, ◌≤◌, [], length, slice_index, slice_index_or};

// One timer for each slot and origin: how many resendings are still to come before the report of the origin is sent again on the
// slot; 0 where none is awaited. Each slot has the timers of its origins, and the numbers of both begin at 1.
#[derive(Debug, Drop, PartialEq, Eq)]
pub struct Timers {
    pub(crate) left: [[u8; 64]; 8],
    ghost full: { length left ≡ 8 },
    ghost each: { (k : ℕ) → k < 8 → length (slice_index_or left k []) ≡ 64 },
    ghost low: { (k j : ℕ) → slice_index (slice_index_or left k []) j ≤ 3 },
}
