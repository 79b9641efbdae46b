// The bench: what the console keeps between commands.
use crate::command::Mistake;
use line::states::Record;
use std::alloc::{AllocError, Global};
use std::array;

// A line record in each slot's place, or none. The heap is where answers are made.
#[derive(Drop)]
pub(crate) struct Bench {
    pub(crate) heap: Global,
    records: [Option<Record>; 8],
}

impl Bench {
    pub(crate) fn new(heap: Global) -> Bench {
        Bench {
            heap,
            records: array::from_fn(|_| None),
        }
    }

    // A slot's place: slots are counted from 1.
    fn place(&mut self, slot: u8) -> Option<&mut Option<Record>> {
        self.records.get_mut(usize::from(slot).wrapping_sub(1))
    }

    // Puts a record into its slot's place, where one that was there is let go. The answer says the record's state.
    pub(crate) fn keep(&mut self, slot: u8, record: Record) -> Result<String, AllocError> {
        let answer = format!(in self.heap; "line {slot} {record}");
        if let Some(place) = self.place(slot) {
            *place = Some(record);
        }
        answer
    }

    // Takes the record out of a slot's place.
    pub(crate) fn take(&mut self, slot: u8) -> Result<Record, Mistake> {
        self.place(slot)
            .and_then(|place| place.take())
            .ok_or(Mistake::NoRecord(slot))
    }
}
