// A field of a report: one byte of tag, two of length (the more significant first), and as many bytes of value.
ghost use Rattle.std.specs.Prelude.{◌≡◌, ◌+◌, ◌%◌, true, false, length, slice_index, IfOk, IfSome, MatchOption, nat_le};
ghost use Rattle.wire.specs.Fields.{tag_number, permitted_length, permitted_value, value_says, shown, field_at, shown_field, tag_of, PairsAre, PairsLieAt};

use crate::fault::{Question, ReadFault};

// Which field it is, by the byte that it begins with; a report has them in this order.
#[derive(Clone, Copy, Debug, PartialEq, Eq)]
pub enum Tag {
    Origin = 1,
    Serial = 2,
    Age = 3,
    Pairs = 4,
}

impl Tag {
    // The byte that the field begins with.
    fn number(self) -> u8
        ensures { result ≡ tag_number self }
    {
        self as u8
    }

    // Whether the value may have so many bytes: one, or three for each of up to eight pairs.
    fn permits(self, length: usize) -> bool
        ensures { result ≡ permitted_length self length }
    {
        match self {
            Tag::Pairs => length % 3 == 0 && length <= 24,
            _ => length == 1,
        }
    }

    // What a value of a permitted length says, if it may be that: an origin from 1 to 64, a serial up to 63, an age from 1
    // to 7, with or without the retry flag's 128. Pairs are looked at where the origin is known, in `Report::read`.
    fn field<'a>(self, value: &'a [u8]) -> Option<Field<'a>>
        requires { permitted_length self (length value.now) ≡ true }
        ensures says { MatchOption result (permitted_value self (slice_index value.now 0) ≡ false)
            (λ f. (permitted_value self (slice_index value.now 0) ≡ true) × (shown f ≡ value_says self value.now)) }
        ensures kind { IfSome result (λ f. tag_of f ≡ self) }
        ensures part { IfSome result (PairsAre value.entry) }
    {
        match (self, value) {
            (Tag::Origin, [origin @ 1..=64]) => Some(Field::Origin(*origin)),
            (Tag::Serial, [serial @ 0..=63]) => Some(Field::Serial(*serial)),
            (Tag::Age, [byte]) if matches!(*byte % 128, 1..=7) => Some(age_field(*byte)),
            (Tag::Pairs, pairs) => Some(Field::Pairs(pairs)),
            _ => None,
        }
    }
}

// A field that was read. The pairs are that very part of the caller's bytes.
#[derive(Clone, Copy, Debug, PartialEq, Eq)]
pub enum Field<'a> {
    Origin(u8),
    Serial(u8),
    Age { age: u8, retry: bool },
    Pairs(&'a [u8]),
}

// The age's byte taken apart: the top bit is the retry flag. No `From<u8>`, since of all bytes only an age's says this.
fn age_field<'a>(byte: u8) -> Field<'a>
    ensures { result ≡ Field.Age (byte % 128) (nat_le 128 byte) }
{
    Field::Age {
        age: byte % 128,
        retry: byte >= 128,
    }
}

// The field at `place`, which has to have the tag.
#[tactic(auto, unfolding(crate::specs::Fields::field_at))]
pub fn read_field<'a>(bytes: &'a [u8], place: usize, tag: Tag) -> Result<Field<'a>, ReadFault>
    ensures value { shown_field result ≡ field_at tag place bytes.now }
    ensures kind { IfOk result (λ f. tag_of f ≡ tag) }
    ensures part { IfOk result (PairsLieAt bytes.entry (place + 3)) }
{
    let Some([first, high, low, rest @ ..]) = bytes.get(place..) else {
        return Err(Question::ThreeBytesLeft.at(place));
    };
    if *first != tag.number() {
        return Err(Question::ExpectedTag.at(place));
    }
    let length = usize::from(u16::from_be_bytes([*high, *low]));
    if !tag.permits(length) {
        return Err(Question::PermittedLength.at(place + 1));
    }
    let start = place + 3;
    if rest.len() < length {
        return Err(Question::ValueAllThere.at(start));
    }
    // An index, since what `get` answers is not said to be that very part of the bytes.
    let value = &bytes[start..start + length];
    tag.field(value).ok_or(Question::PermittedValue.at(start))
}
