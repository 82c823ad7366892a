// A sheet's records.

// A record's kind, and the three bytes after it; a shorter body leaves the last ones unused. Then the two numbers of
// four bytes after the first of these bytes: kind 7 has them, and in any other kind they are 0.
#[derive(Clone, Copy)]
pub struct Record {
    pub kind: u8,
    pub x: u8,
    pub y: u8,
    pub z: u8,
    pub from: u32,
    pub until: u32,
}
