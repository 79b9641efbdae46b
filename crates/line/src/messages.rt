// A test message that was due: it was heard, or it was missed. As a number it is its bit in a window.
#[derive(Clone, Copy, Debug, PartialEq, Eq)]
pub enum Message {
    Heard = 0,
    Missed = 1,
}
