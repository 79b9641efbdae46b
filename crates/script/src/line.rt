// The words of a line, each handed out as the part of the line that it is.
ghost use Rattle.std.specs.Prelude.{◌≡◌, ◌≤◌, length};
ghost use Rattle.std.specs.Iterator.{AlwaysYields, at_most};
ghost use Rattle.std.specs.Iterator.Runs.{EveryRun, ItemsMapTo};
ghost use Rattle.std.specs.List.{prefix_len};
ghost use Rattle.script.specs.Words.{blank, is_blank, body, words_of, WordsOfLine, WordLaws};
ghost use Rattle.script.specs.Stepping.{bytes_left, words_left, word_steps};

// A blank separates words.
fn is_blank(byte: u8) -> bool
    ensures { result ≡ blank byte }
{
    matches!(byte, b' ' | b'\t')
}

// How many bytes at the front are blanks, or are no blanks.
fn front(bytes: &[u8], blanks: bool) -> usize
    ensures value { result ≡ prefix_len (is_blank blanks) bytes.now }
    ensures within { result ≤ length bytes.now }
{
    bytes
        .iter()
        .take_while(|byte| is_blank(**byte) == blanks)
        .count()
}

// The line without the one CR that may end it.
fn without_return(line: &[u8]) -> &[u8]
    ensures { result.now ≡ body line.now }
{
    line.strip_suffix(b"\r").unwrap_or(line)
}

// What is left of a line whose words are handed out from the left.
#[derive(Drop)]
pub struct Words<'a> {
    rest: &'a [u8],
}

impl<'a> Words<'a> {
    // The words of a line, which comes without its newline.
    pub fn new(line: &'a [u8]) -> Words<'a>
        ensures words { words_left result ≡ words_of line.now }
        ensures gives { AlwaysYields word_steps (λ w. w.now) result (words_of line.now) }
        ensures runs { EveryRun word_steps (λ p. ItemsMapTo p (λ w. w.now) (words_left p.from)) }
        ensures sound { WordsOfLine line.now }
        ensures laws { WordLaws }
    {
        Words {
            rest: without_return(line),
        }
    }
}

impl<'a> Iterator for Words<'a> {
    type Item = &'a [u8];

    ghost next_gives = { word_steps };

    ghost remaining = { λ s. at_most (length (bytes_left s)) };

    fn next(&mut self) -> Option<&'a [u8]> {
        let rest = self.rest;
        let rest = &rest[front(rest, true)..];
        let (word, after) = rest.split_at(front(rest, false));
        if word.is_empty() {
            return None;
        }
        self.rest = after;
        Some(word)
    }
}
