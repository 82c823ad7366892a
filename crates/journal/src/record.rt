// The records of a journal, and calls that are asked for by a kind and a number.
ghost use Rattle.std.specs.Prelude.{◌≡◌, take};

use plan::answer::CallFault;
use plan::calls::Call;
use std::num::TryFromIntError;

// Why no call can be read at an offset: there is nothing, or a record that is cut; or there is another record.
#[derive(Clone, Copy, Debug, PartialEq, Eq)]
pub enum NoRecord {
    Short,
    Other,
}

// A call's record: its bytes, with 0 behind them, and how many it has. The array is of a fixed size, since this library
// allocates nothing.
#[derive(Clone, Copy)]
pub struct CallRecord {
    pub bytes: [u8; 8],
    pub size: usize,
}

impl CallRecord {
    // The record's own bytes.
    pub fn as_slice(&self) -> &[u8]
        ensures { result.now ≡ take self.now.size self.now.bytes }
    {
        &self.bytes[..self.size.min(8)]
    }
}

// A kind and a number that ask for no call, and the number by which they are turned down.
#[derive(Clone, Copy, Debug, PartialEq, Eq)]
pub struct NoCall {
    pub number: u8,
}

impl From<TryFromIntError> for NoCall {
    ghost from_gives = { λ _ why. why.number ≡ 9 };

    fn from(_error: TryFromIntError) -> NoCall {
        NoCall {
            number: CallFault::Unknown as u8,
        }
    }
}
