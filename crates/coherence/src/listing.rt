// One pass over the lines of a history. A length above 16 stands for all 16 places.
ghost use Rattle.std.specs.Prelude.{take};
ghost use Rattle.plan.specs.Fates.{fates_of};
ghost use Rattle.coherence.specs.Listings.{Listed};

use checks::fate::{is_done, is_settled};
use checks::history::lines_in;
use plan::fate::Standing;
use plan::history::Entry;

// What one pass over the lines tells: which events have a line, and for each done event the place of its line, counted
// from 1; 0 for the others.
#[derive(Clone, Copy)]
pub struct Listing {
    pub listed: [bool; 16],
    pub places: [u8; 16],
}

// Where the events stand in the lines. `None`: a line names an event that is not declared, has an earlier line, is not
// settled or has another fate.
pub fn list_events(
    history: [Entry; 16],
    len: u8,
    count: u8,
    standings: [Standing; 16],
) -> Option<Listing>
    ensures { Listed (take len history) count (fates_of standings) result }
{
    let mut listed = [false; 16];
    let mut places = [0u8; 16];
    for (i, line) in history[..lines_in(len) as usize].iter().enumerate() {
        let event = line.event as usize;
        if (16 <= event) | (count <= line.event) {
            return None;
        }
        let fate = standings[event].fate;
        if listed[event] | !(is_settled(fate) & (line.fate == fate)) {
            return None;
        }
        listed[event] = true;
        if is_done(fate) {
            places[event] = i as u8 + 1;
        }
    }
    Some(Listing { listed, places })
}
