// Fates, and the place that holds one for an event.

// Where an event is: still to come, waiting, or settled in one of four ways (5.1, 5.2). A forced event was open when
// the scheduler did it.
#[derive(Clone, Copy, PartialEq, Eq)]
pub enum Fate {
    Open,
    Held,
    Done,
    Refused,
    Lapsed,
    Forced,
}

// An event's fate in its place.
#[derive(Clone, Copy)]
pub struct Standing {
    pub fate: Fate,
}
