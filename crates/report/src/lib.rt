// An outcome's report, written into a buffer that the caller lends.
#![tactic(auto)]

mod page;
mod text;

ghost use Rattle.std.specs.Prelude.{◌≤◌, ◌≡◌, length};
ghost use Rattle.scheduler.specs.Runner.{report};
ghost use Rattle.pages.specs.Filled.{filled};

use pages::{Page, fill};
use scheduler::reply::Outcome;
use text::put_report;

// Writes the report to the start of the buffer and answers its length; a buffer that is too short keeps its bytes.
pub fn write_report(outcome: Outcome, out: &mut [u8]) -> usize
    ensures length { result ≡ length (report outcome) }
    ensures bytes { out.new ≡ filled (report outcome) out.old }
    ensures short { result ≤ 320 }
{
    let mut page = Page::new();
    put_report(&mut page, outcome);
    let text = page.text();
    fill(text, out);
    text.len()
}
