// A state's sheet: its length, and its bytes in a lent buffer.
ghost use Rattle.std.specs.Prelude.{◌≡◌, length};
ghost use Rattle.writer.specs.Writing.{call_fault, need_of, length_reply, write_reply, buffer_after};
ghost use Rattle.writer.specs.Internal.Tests.{coherent_or_fault};

use super::records::put_sheet;
use pages::{Page, fill};
use plan::answer::CallFault;
use scheduler::state::State;

// Why a sheet is not written: the state is not coherent, number 12; or the buffer is shorter than the sheet, number 14,
// which has this length.
#[derive(Clone, Copy)]
pub enum WriteFault {
    Incoherent,
    NoRoom(usize),
}

impl From<WriteFault> for CallFault {
    ghost from_gives = { λ f c. c ≡ call_fault f };

    fn from(fault: WriteFault) -> CallFault {
        match fault {
            WriteFault::Incoherent => CallFault::Incoherent,
            WriteFault::NoRoom(_) => CallFault::NoRoom,
        }
    }
}

impl WriteFault {
    // The length that the buffer has to have; 0 if the state is not coherent.
    pub(crate) fn need(self) -> usize
        ensures { result ≡ need_of self }
    {
        match self {
            WriteFault::Incoherent => 0,
            WriteFault::NoRoom(length) => length,
        }
    }
}

// The length of the state's sheet; nothing is written.
pub fn sheet_length(state: State) -> Result<usize, WriteFault>
    ensures { result ≡ length_reply state }
{
    test_coherent(state)?;
    let mut page = Page::new();
    put_sheet(&mut page, state.plan);
    Ok(page.text().len())
}

// Writes the state's sheet to the start of the buffer and answers its length. If the state is not coherent, or the
// buffer is shorter than the sheet, the buffer keeps its bytes.
pub fn write_sheet(state: State, out: &mut [u8]) -> Result<usize, WriteFault>
    ensures reply { result ≡ write_reply state (length out.old) }
    ensures bytes { out.new ≡ buffer_after state out.old }
{
    test_coherent(state)?;
    let mut page = Page::new();
    put_sheet(&mut page, state.plan);
    let sheet = page.text();
    if out.len() < sheet.len() {
        return Err(WriteFault::NoRoom(sheet.len()));
    }
    fill(sheet, out);
    Ok(sheet.len())
}

// Number 12 is the one fault that a state has by itself.
fn test_coherent(state: State) -> Result<(), WriteFault>
    ensures { result ≡ coherent_or_fault state }
{
    if state.is_coherent() {
        Ok(())
    } else {
        Err(WriteFault::Incoherent)
    }
}
