// Words that are decimal numbers.
ghost use Rattle.std.specs.Prelude.{◌≡◌, ◌+◌, ◌*◌, min};
ghost use Rattle.script.specs.Numbers.{number_of, NumberLaws};

// The value with one digit more behind it, at most `largest`.
fn with_digit(value: u64, digit: u32, largest: u64) -> u64
    ensures { result ≡ min (10 * value + digit) largest }
{
    let more = value.saturating_mul(10).saturating_add(u64::from(digit));
    more.min(largest)
}

// The number that a word of digits stands for, or `largest` where it is larger than that.
#[tactic(auto, using(crate::proofs::Capped::number_laws))]
pub fn number(word: &[u8], largest: u64) -> Option<u64>
    ensures value { result ≡ number_of word.now largest }
    ensures laws { NumberLaws largest }
{
    if word.is_empty() {
        return None;
    }
    let mut value = 0;
    for byte in word {
        let digit = char::from(*byte).to_digit(10)?;
        value = with_digit(value, digit, largest);
    }
    Some(value)
}
