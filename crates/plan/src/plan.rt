// What a sheet declares.
use super::event::Event;
use super::rule::RuleLine;
use super::window::Window;

// Events with their step and attributes, rules, and a window for each event. No call changes a plan.
#[derive(Clone, Copy)]
pub struct Plan {
    pub event_count: u8,
    pub windows: [Window; 16],
    pub events: [Event; 16],
    pub rules: [RuleLine; 16],
    pub rule_count: u8,
}
