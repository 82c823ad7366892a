// Events and their attributes.

// The bits of an event's attributes.
pub const FORCIBLE: u8 = 1;

pub const REJECTABLE: u8 = 2;

pub const DELAYABLE: u8 = 4;

// What a sheet declares of an event. The attributes are a sum of the bits above.
#[derive(Clone, Copy)]
pub struct Event {
    pub step: u8,
    pub attributes: u8,
}
