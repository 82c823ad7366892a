// The runner's list: submits, closings and finishes.
ghost use Rattle.std.specs.Prelude.{◌≡◌};
ghost use Rattle.plan.specs.Calls.{first_call, decode};
ghost use Rattle.scheduler.specs.declared.state.State.{State};
ghost use Rattle.scheduler.specs.Sheet.{read_sheet, admitted};
ghost use Rattle.scheduler.specs.Lists.{scheduler};
ghost use Rattle.scheduler.specs.Runner.{run_of};
ghost use Rattle.scheduler.specs.Demand.{Demand3, seen};
ghost use Rattle.lists.specs.Internal.Codecs.{runner_codec};

use super::list::{Codec, run_list};
use plan::calls::CallRead;
use scheduler::reply::Outcome;

// Records of kind 16 to 18.
struct RunnerCalls;

impl Codec for RunnerCalls {
    ghost first = { first_call };

    ghost decoding = { decode };

    ghost is_codec = { runner_codec };

    fn call_at(bytes: &[u8], at: usize) -> CallRead {
        checks::calls::call_at(bytes, at)
    }
}

// Runs the calls on the sheet. A record that is cut or of another kind ends the list and counts as one call turned
// down. On a sheet that is turned down no call is made. The guarantee (demand 3) is true of every admitted sheet and
// every list.
#[tactic(auto, unfolding(scheduler::specs::Runner::run_of))]
pub fn run(sheet: &[u8], calls: &[u8]) -> Outcome
    ensures result { result ≡ run_of sheet.now calls.now }
    ensures demand3 { (s : State) → read_sheet sheet.now ≡ admitted s → Demand3 s.plan (seen scheduler s (decode calls.now).calls) result.state }
{
    run_list::<RunnerCalls>(sheet, calls)
}
