// The tests of a record: its kind, or its first fault.
#![tactic(auto, unfolding(plan::specs::Faults::first_fault))]

ghost use Rattle.std.specs.Prelude.{◌≡◌, IfOk, IfErr, None, Some};
ghost use Rattle.plan.specs.Records.{record_fault, rule_of};
ghost use Rattle.plan.specs.Rules.{bad_window};
ghost use Rattle.sheet.specs.Internal.Records.{number_of};
ghost use Rattle.sheet.specs.Internal.Progress.{is_full, body_fault, check_of};
ghost use Rattle.sheet.specs.Internal.Progress.{event_fault, step_fault, rule_fault, window_fault};

use super::kind::Kind;
use checks::event::{are_bad, is_delayable};
use checks::rule::{are_named, is_enforceable};
use plan::answer::SheetFault;
use plan::plan::Plan;
use plan::record::Record;
use plan::rule::Rule;

// Tests the record at an offset of a sheet of some length.
#[tactic(auto, unfolding(plan::specs::Records::record_fault, plan::specs::Faults::first_fault))]
pub(crate) fn check_record(
    plan: &Plan,
    len: usize,
    at: usize,
    rec: Record,
) -> Result<Kind, SheetFault>
    ensures fine { IfOk result (λ kind. (record_fault plan.now len at rec ≡ None) × (number_of kind ≡ rec.kind)) }
    ensures faulty { IfErr result (λ fault. record_fault plan.now len at rec ≡ Some fault) }
{
    if len <= at {
        return Err(SheetFault::Cut);
    }
    let Some(kind) = Kind::of(rec.kind) else {
        return Err(SheetFault::BadKind);
    };
    if len - at < 1 + kind.body_length() as usize {
        return Err(SheetFault::Cut);
    }
    if is_full(plan, kind) {
        return Err(SheetFault::Full);
    }
    check_body(plan, kind, rec)?;
    Ok(kind)
}

// Row 3: is there no room for what a record of this kind declares?
fn is_full(plan: &Plan, kind: Kind) -> bool
    ensures { result ≡ is_full plan.now (number_of kind) }
{
    let events = plan.event_count as usize + kind.new_events() as usize;
    let rules = plan.rule_count as usize + kind.new_rules() as usize;
    16 < events || 16 < rules
}

// The rows from 4 on, which look at the body.
fn check_body(plan: &Plan, kind: Kind, rec: Record) -> Result<(), SheetFault>
    requires { number_of kind ≡ rec.kind }
    ensures { result ≡ check_of (body_fault plan.now rec) }
{
    match kind {
        Kind::Event => check_event(rec.x, rec.y),
        Kind::Order | Kind::Need | Kind::Conditional => check_rule(plan, kind.rule_of(rec)),
        Kind::End => Ok(()),
        Kind::FourEvents => check_step(rec.x),
        Kind::Window => check_window(plan, rec),
    }
}

// Rows 4 and 5 of an event.
fn check_event(step: u8, attributes: u8) -> Result<(), SheetFault>
    ensures { result ≡ check_of (event_fault step attributes) }
{
    check_step(step)?;
    if are_bad(attributes) {
        return Err(SheetFault::BadAttributes);
    }
    Ok(())
}

// Row 4.
fn check_step(step: u8) -> Result<(), SheetFault>
    ensures { result ≡ check_of (step_fault step) }
{
    if 7 < step {
        return Err(SheetFault::BadStep);
    }
    Ok(())
}

// Rows 6 and 7: the rule's names, and whether it can be enforced.
fn check_rule(plan: &Plan, rule: Rule) -> Result<(), SheetFault>
    ensures { result ≡ check_of (rule_fault plan.now rule) }
{
    if !are_named(plan.event_count, rule) {
        return Err(SheetFault::BadNames);
    }
    if !is_enforceable(plan.events, rule) {
        return Err(SheetFault::Unenforceable);
    }
    Ok(())
}

// Row 15: a window that the sheet may not give the event.
fn check_window(plan: &Plan, rec: Record) -> Result<(), SheetFault>
    ensures { result ≡ check_of (window_fault plan.now rec) }
{
    if is_bad_window(plan, rec.x, rec.from, rec.until) {
        return Err(SheetFault::BadWindow);
    }
    Ok(())
}

#[tactic(auto, unfolding(plan::specs::Rules::bad_window))]
fn is_bad_window(plan: &Plan, event: u8, from: u32, until: u32) -> bool
    ensures { result ≡ bad_window plan.now event from until }
{
    if 16 <= event {
        return true;
    }
    plan.event_count <= event
        || !is_delayable(plan.events[event as usize].attributes)
        || plan.windows[event as usize].until != 0
        || until <= from
}
