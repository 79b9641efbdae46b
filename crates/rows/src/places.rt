// Where what is numbered from 1 stands.
ghost use Rattle.std.specs.Prelude.{◌≡◌, ◌+◌, ◌^◌, ◌<◌, ◌≤◌};

// Where what has this number stands. Nothing has number 0, so it falls beyond every array.
pub fn place(number: u8) -> usize
    ensures from_1 { 1 ≤ number → result + 1 ≡ number }
    ensures from_0 { number ≡ 0 → result + 1 ≡ 2 ^ 64 }
    ensures within { result < 255 → result + 1 ≡ number }
{
    usize::from(number).wrapping_sub(1)
}
