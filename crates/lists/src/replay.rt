// A list of calls of every kind, advances included.
ghost use Rattle.std.specs.Prelude.{◌≡◌};
ghost use Rattle.plan.specs.Calls.{any_call_first, decode_all};
ghost use Rattle.scheduler.specs.declared.state.State.{State};
ghost use Rattle.scheduler.specs.Sheet.{read_sheet, admitted};
ghost use Rattle.scheduler.specs.Lists.{scheduler};
ghost use Rattle.scheduler.specs.Runner.{replay_of};
ghost use Rattle.scheduler.specs.Demand.{Demand3, seen};
ghost use Rattle.lists.specs.Internal.Codecs.{any_codec};

use super::list::{Codec, run_list};
use plan::calls::CallRead;
use scheduler::reply::Outcome;

// Records of kind 16 to 19.
struct AnyCalls;

impl Codec for AnyCalls {
    ghost first = { any_call_first };

    ghost decoding = { decode_all };

    ghost is_codec = { any_codec };

    fn call_at(bytes: &[u8], at: usize) -> CallRead {
        checks::calls::any_call_at(bytes, at)
    }
}

// As `run`, with records of kind 19 too. A record that is cut or of another kind ends the list and counts as one call
// turned down. The guarantee (demand 3) is true of every admitted sheet and every list.
#[tactic(auto, unfolding(scheduler::specs::Runner::replay_of))]
pub fn replay(sheet: &[u8], calls: &[u8]) -> Outcome
    ensures result { result ≡ replay_of sheet.now calls.now }
    ensures demand3 { (s : State) → read_sheet sheet.now ≡ admitted s → Demand3 s.plan (seen scheduler s (decode_all calls.now).calls) result.state }
{
    run_list::<AnyCalls>(sheet, calls)
}
