// The lines of a history. A length above 16 stands for all 16 places.
use super::fate::Fate;

// A line of the history: an event with its fate.
#[derive(Clone, Copy)]
pub struct Entry {
    pub event: u8,
    pub fate: Fate,
}
