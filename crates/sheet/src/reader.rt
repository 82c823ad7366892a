// The reader: it holds a sheet and its place in it, and hands both to functions on a slice and a number.
ghost use Rattle.std.specs.Prelude.{◌≡◌, length};
ghost use Rattle.plan.specs.Records.{record_at};
ghost use Rattle.sheet.specs.Internal.Place.{place_after, new_reader, moved_past};

use super::kind::body_length;
use super::record::record_at;
use plan::record::Record;

#[derive(Clone, Copy)]
pub(crate) struct Reader<'a> {
    pub sheet: &'a [u8],
    pub at: usize,
}

impl<'a> Reader<'a> {
    pub(crate) fn new(sheet: &'a [u8]) -> Reader<'a>
        ensures { result ≡ new_reader sheet.entry }
    {
        Reader { sheet, at: 0 }
    }

    // The record at the reader's place.
    pub(crate) fn record(&self) -> Record
        ensures { result ≡ record_at self.now.sheet.now self.now.at }
    {
        record_at(self.sheet, self.at)
    }

    // Moves past the record at the reader's place; past the sheet's end, the place stays.
    pub(crate) fn move_past(&mut self, rec: Record)
        ensures { self.new ≡ moved_past self.old rec }
    {
        if self.at < self.sheet.len() {
            self.at += 1 + body_length(rec.kind) as usize;
        }
    }
}
