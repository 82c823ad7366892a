// A page that fills with bytes from its start, bytes put from an offset on, and a text copied into a lent buffer.
#![tactic(auto)]

ghost use Rattle.std.specs.Prelude.{◌≡◌, [], ◌∷◌};
ghost use Rattle.pages.specs.Filled.{filled};
ghost use Rattle.pages.specs.Text.{text_after};
ghost use Rattle.pages.specs.Written.{end_after, page_after};

use std::marker::Model;

// The most bytes that a page holds.
pub const MOST: usize = 320;

// Bytes put one after another. Contracts see a page as the list of its bytes, its text.
#[derive(Drop)]
pub struct Page {
    bytes: [u8; MOST],
    len: usize,
}

impl Model for Page {
    ghost use Rattle.std.specs.Prelude.{ℕ, ◌≤◌, List, take};

    ghost Value = { List ℕ };

    ghost view = { λ p. take p.len p.bytes };

    ghost invariant = { λ p. p.len ≤ 320 };
}

impl Page {
    // A page without text.
    pub fn new() -> Page
        ensures { result ≡ [] }
    {
        Page {
            bytes: [0; MOST],
            len: 0,
        }
    }

    // The page's text.
    pub fn text(&self) -> &[u8]
        ensures { result.now ≡ self.now }
    {
        &self.bytes[..self.len]
    }

    // Puts bytes after the page's text. If it has no room for them, it stays as it is.
    pub fn put(&mut self, bytes: &[u8])
        ensures { self.new ≡ text_after self.old bytes.now }
    {
        self.len = put_bytes(&mut self.bytes, self.len, bytes);
    }

    // The same for one byte.
    pub fn push(&mut self, byte: u8)
        ensures { self.new ≡ text_after self.old (byte ∷ []) }
    {
        if self.len == MOST {
            return;
        }
        self.bytes[self.len] = byte;
        self.len += 1;
    }
}

// Copies a text to the start of a buffer, if it has room.
pub fn fill(text: &[u8], out: &mut [u8])
    ensures { out.new ≡ filled text.now out.old }
{
    if out.len() < text.len() {
        return;
    }
    out[..text.len()].copy_from_slice(text);
}

// Puts bytes into a page from an offset on and answers where they end. If the page has no room for them, it stays as it
// is, and the offset is the answer.
pub fn put_bytes(page: &mut [u8; MOST], at: usize, bytes: &[u8]) -> usize
    ensures end { result ≡ end_after at bytes.now }
    ensures page { page.new ≡ page_after page.old at bytes.now }
{
    if MOST < at {
        return at;
    }
    if MOST - at < bytes.len() {
        return at;
    }
    page[at..at + bytes.len()].copy_from_slice(bytes);
    at + bytes.len()
}
