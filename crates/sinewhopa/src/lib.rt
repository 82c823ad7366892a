// The static library: the functions that include/sinewhopa.h declares. The run of a whole list is here. On a state that
// the host keeps, single calls are in state.rt, batches in batches.rt, previews in previews.rt, and the state written
// out as a sheet in sheets.rt. Journals are in journals.rt, the version in version.rt.
#![tactic(auto)]

pub mod batches;
pub mod journals;
pub mod previews;
pub mod sheets;
pub mod state;
pub mod version;

ghost use Rattle.std.specs.Prelude.{◌≡◌, ◌≤◌, length};
ghost use Rattle.scheduler.specs.Runner.{run_of, report};
ghost use Rattle.pages.specs.Filled.{filled};

use lists::run::run;
use report::write_report;

// Runs the calls on the sheet, writes the report at the start of `out` and answers its length. If `out` is shorter than
// that, nothing is written.
#[unsafe(no_mangle)]
pub extern "C" fn sinewhopa_run(sheet: &[u8], calls: &[u8], out: &mut [u8]) -> usize
    ensures length { result ≡ length (report (run_of sheet.now calls.now)) }
    ensures bytes { out.new ≡ filled (report (run_of sheet.now calls.now)) out.old }
    ensures short { result ≤ 320 }
{
    write_report(run(sheet, calls), out)
}
