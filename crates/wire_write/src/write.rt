// Writing a report into the caller's buffer: one that was read, or one from its parts.
ghost use Rattle.std.specs.Prelude.{◌≡◌, length, take, IfOk, Ok, Some};
ghost use Rattle.wire.specs.Reports.{Allowed, read_report};
ghost use Rattle.wire.specs.Form.{age_byte, head, framed, encode};
ghost use Rattle.wire_write.specs.Putting.{write_number, write_text, drafted, put_answer, put};

use std::error::Error;
use std::fmt;
use wire::field::Tag;
use wire::lines::Line;
use wire::report::{Header, Report};

// A report that is to be written, with its lines as they are kept.
#[derive(Clone, Copy, Debug, PartialEq, Eq)]
pub struct Draft<'a> {
    pub header: Header,
    pub lines: &'a [Line],
}

// What refuses a writing, by the number of the refusal.
#[derive(Clone, Copy, Debug, PartialEq, Eq)]
pub enum WriteFault {
    BufferTooShort = 27,
}

impl WriteFault {
    // The number by which the writing is refused.
    pub fn number(self) -> u8
        ensures { result ≡ write_number self }
    {
        self as u8
    }
}

impl fmt::Display for WriteFault {
    ghost output = { λ e. Some (write_text e) };

    fn fmt<W: fmt::Write>(&self, f: &mut fmt::Formatter<W>) -> fmt::Result {
        // The same word as in every crate that refuses: a crate of its own for it would be no plainer.
        write!(f, "refused {}", self.number())
    }
}

impl Error for WriteFault {}

// How many bytes stand before the pairs.
const HEAD: usize = 15;

// The age's byte, 128 more where the retry flag is set. No `From<Header>`, since a header is more than its age and flag.
fn age_byte(header: Header) -> u8
    ensures { result ≡ age_byte header.age header.retry }
{
    if header.retry {
        header.age % 128 + 128
    } else {
        header.age % 128
    }
}

// The bytes that stand before pairs of `size` bytes.
fn head_bytes(header: Header, size: usize) -> [u8; HEAD]
    ensures { result ≡ head header size }
{
    let age = age_byte(header);
    let [.., high, low] = size.to_be_bytes();
    [
        Tag::Origin as u8,
        0,
        1,
        header.origin,
        Tag::Serial as u8,
        0,
        1,
        header.serial,
        Tag::Age as u8,
        0,
        1,
        age,
        Tag::Pairs as u8,
        high,
        low,
    ]
}

// Puts a report that was read at the start of the buffer, alters nothing behind it, and answers its length. A length and no
// slice, since the promise is of the whole buffer, which the caller keeps.
pub fn write_report(report: &Report, out: &mut [u8]) -> Result<usize, WriteFault>
    ensures answer { result ≡ put_answer (framed report.now.header report.now.pairs.now) out.old }
    ensures buffer { out.new ≡ put (framed report.now.header report.now.pairs.now) out.old }
{
    let pairs = report.pairs;
    let size = pairs.len();
    let (head, rest) = out
        .split_first_chunk_mut::<HEAD>()
        .ok_or(WriteFault::BufferTooShort)?;
    if rest.len() < size {
        return Err(WriteFault::BufferTooShort);
    }
    *head = head_bytes(report.header, size);
    rest[..size].copy_from_slice(pairs);
    Ok(HEAD + size)
}

// Puts a draft at the start of the buffer, alters nothing behind it, and answers its length. What a report may say reads
// back as it was meant; a draft that says anything else is written by the same definition. All of it by places in the one buffer:
// split in two as in `write_report`, it took 50 nanoseconds more for 8 lines.
pub fn write_draft(draft: &Draft, out: &mut [u8]) -> Result<usize, WriteFault>
    ensures answer { result ≡ put_answer (encode (drafted draft.now)) out.old }
    ensures buffer { out.new ≡ put (encode (drafted draft.now)) out.old }
    ensures reads_back { Allowed (drafted draft.now) → IfOk result (λ n. read_report (take n out.new) ≡ Ok (drafted draft.now)) }
{
    let lines = draft.lines;
    if out.len() < HEAD || (out.len() - HEAD) / 3 < lines.len() {
        return Err(WriteFault::BufferTooShort);
    }
    out[0..HEAD].copy_from_slice(&head_bytes(draft.header, 3 * lines.len()));
    // By places, since the library does not say what chunks that are lent for writing leave in the buffer.
    let mut end = HEAD;
    for line in lines {
        out[end..end + 3].copy_from_slice(&<[u8; 3]>::from(*line));
        end += 3;
    }
    Ok(end)
}
