// What records declare, and the first state of a plan.
ghost use Rattle.std.specs.Prelude.{◌≡◌, ◌+◌, ◌≤◌};
ghost use Rattle.plan.specs.Plans.{event_count, rule_count};
ghost use Rattle.plan.specs.Records.{new_events, new_rules, declare};
ghost use Rattle.plan.specs.Records.{add_event, add_events, add_rule, add_window, table1};
ghost use Rattle.scheduler.specs.State.{first_state};
ghost use Rattle.sheet.specs.Internal.Records.{number_of};

use super::kind::Kind;
use plan::event::Event;
use plan::fate::{Fate, Standing};
use plan::history::Entry;
use plan::plan::Plan;
use plan::record::Record;
use plan::rule::{Rule, RuleLine};
use plan::window::Window;
use scheduler::state::State;

// The attributes of a kind 6 record's events: st, pr, cm, ab of the paper's table 1.
const TABLE_1: [u8; 4] = [7, 0, 6, 1];

// An admitted sheet's first state.
pub(crate) fn first_state(plan: Plan) -> State
    ensures { result ≡ first_state plan }
{
    State {
        plan,
        standings: [Standing { fate: Fate::Open }; 16],
        broken: [false; 16],
        closed: [false; 8],
        history: [Entry {
            event: 0,
            fate: Fate::Open,
        }; 16],
        history_len: 0,
        minute: 0,
    }
}

// What a record of a kind other than 5 declares, stored into the plan in its place: a copy of the plan for each record
// would take most of the time.
#[tactic(auto, unfolding(plan::specs::Records::declare))]
pub(crate) fn declare(plan: &mut Plan, kind: Kind, rec: Record)
    requires kind { number_of kind ≡ rec.kind }
    requires last { rec.kind ≡ 5 → ⊥ }
    requires events { event_count plan.old + new_events rec.kind ≤ 16 }
    requires rules { rule_count plan.old + new_rules rec.kind ≤ 16 }
    ensures { plan.new ≡ declare plan.old rec }
{
    match kind {
        Kind::Event => add_event(plan, rec.x, rec.y),
        Kind::Order | Kind::Need | Kind::Conditional => add_rule(plan, kind.rule_of(rec)),
        Kind::End => unreachable!(),
        Kind::FourEvents => add_events(plan, rec.x),
        Kind::Window => add_window(plan, rec.x, rec.from, rec.until),
    }
}

#[tactic(auto, unfolding(plan::specs::Records::add_event))]
fn add_event(plan: &mut Plan, step: u8, attributes: u8)
    requires { event_count plan.old + 1 ≤ 16 }
    ensures { plan.new ≡ add_event plan.old step attributes }
{
    plan.events[plan.event_count as usize] = Event { step, attributes };
    plan.event_count += 1;
}

#[tactic(auto, unfolding(plan::specs::Records::add_rule))]
fn add_rule(plan: &mut Plan, rule: Rule)
    requires { rule_count plan.old + 1 ≤ 16 }
    ensures { plan.new ≡ add_rule plan.old rule }
{
    plan.rules[plan.rule_count as usize] = RuleLine { rule };
    plan.rule_count += 1;
}

// The four events of a kind 6 record, one after another.
#[tactic(auto, using(crate::proofs::RecordLaws::table_steps), unfolding(plan::specs::Records::add_event))]
fn add_events(plan: &mut Plan, step: u8)
    requires { event_count plan.old + 4 ≤ 16 }
    ensures { plan.new ≡ add_events plan.old step table1 }
{
    for attributes in TABLE_1 {
        add_event(plan, step, attributes);
    }
}

// The window of an event; past the 16 places there is none.
#[tactic(auto, unfolding(plan::specs::Records::add_window))]
fn add_window(plan: &mut Plan, event: u8, from: u32, until: u32)
    ensures { plan.new ≡ add_window plan.old event from until }
{
    if event < 16 {
        plan.windows[event as usize] = Window { from, until };
    }
}
