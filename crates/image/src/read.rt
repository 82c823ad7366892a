// The state that bytes stand for, read array by array.
ghost use Rattle.std.specs.Prelude.{◌≡◌, ◌+◌, ◌≤◌};
ghost use Rattle.plan.specs.Base.{tabulate};
ghost use Rattle.plan.specs.Records.{word_at};
ghost use Rattle.image.specs.Layout.{window_in, plan_in, state_in};

use super::layout::{
    A_AT, ATTRIBUTES_AT, B_AT, C_AT, EVENT_COUNT_AT, FATE_AT, FROM_AT, KIND_AT, LINE_COUNT_AT,
    LINE_EVENT_AT, LINE_FATE_AT, MARK_AT, MINUTE_AT, RULE_COUNT_AT, SHUT_AT, STEP_AT, UNTIL_AT,
};
use super::number::{fate_from, rule_from};
use plan::event::Event;
use plan::fate::Standing;
use plan::history::Entry;
use plan::plan::Plan;
use plan::rule::RuleLine;
use plan::window::Window;
use scheduler::state::State;
use std::array::from_fn;

// The state that the bytes stand for. Any bytes stand for one, but only an image is written again as the same bytes.
pub fn state_in(image: &[u8; 384]) -> State
    ensures { result ≡ state_in image.now }
{
    State {
        plan: plan_in(image),
        standings: from_fn(|e| Standing {
            fate: fate_from(image[FATE_AT + e]),
        }),
        broken: from_fn(|i| image[MARK_AT + i] == 1),
        closed: from_fn(|k| image[SHUT_AT + k] == 1),
        history: from_fn(|n| Entry {
            event: image[LINE_EVENT_AT + n],
            fate: fate_from(image[LINE_FATE_AT + n]),
        }),
        history_len: image[LINE_COUNT_AT],
        minute: word_in(image, MINUTE_AT),
    }
}

fn plan_in(image: &[u8; 384]) -> Plan
    ensures { result ≡ plan_in image.now }
{
    Plan {
        events: from_fn(|e| Event {
            step: image[STEP_AT + e],
            attributes: image[ATTRIBUTES_AT + e],
        }),
        event_count: image[EVENT_COUNT_AT],
        rules: from_fn(|i| RuleLine {
            rule: rule_from(
                image[KIND_AT + i],
                image[A_AT + i],
                image[B_AT + i],
                image[C_AT + i],
            ),
        }),
        rule_count: image[RULE_COUNT_AT],
        windows: windows_in(image),
    }
}

fn windows_in(image: &[u8; 384]) -> [Window; 16]
    ensures { result ≡ tabulate 16 0 (window_in image.now) }
{
    from_fn(|e| Window {
        from: word_in(image, FROM_AT + 4 * e),
        until: word_in(image, UNTIL_AT + 4 * e),
    })
}

// A number of four bytes, the lowest first.
fn word_in(image: &[u8; 384], at: usize) -> u32
    requires { at + 4 ≤ 384 }
    ensures { result ≡ word_at image.now at }
{
    u32::from_le_bytes([image[at], image[at + 1], image[at + 2], image[at + 3]])
}
