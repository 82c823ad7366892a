// A sheet's records, put into a page one after another.
ghost use Rattle.std.specs.Prelude.{◌≡◌, ◌≤◌, ◌++◌, ℕ, List, length};
ghost use Rattle.plan.specs.Plans.{event_count, rule_count};
ghost use Rattle.writer.specs.Writing.{event_record, rule_record, window_record, sheet_bytes};
ghost use Rattle.writer.specs.Internal.Records.{records};
ghost use Rattle.pages.specs.Text.{HasRoom};

use pages::Page;
use plan::event::Event;
use plan::plan::Plan;
use plan::rule::{Rule, RuleLine};
use plan::window::Window;

// What a plan declares at one of its places.
trait Declared {
    // The bytes of its record.
    ghost bytes: { ℕ → Self → List ℕ };

    fn put(&self, place: u8, page: &mut Page)
        requires { HasRoom page.old (bytes place self.now) }
        ensures { page.new ≡ page.old ++ bytes place self.now };
}

// A record of kind 1.
impl Declared for Event {
    ghost bytes = { λ e v. event_record v };

    fn put(&self, _place: u8, page: &mut Page) {
        page.put(&[1, self.step, self.attributes]);
    }
}

// A record of kind 2, 3 or 4.
impl Declared for RuleLine {
    ghost bytes = { λ i l. rule_record l.rule };

    fn put(&self, _place: u8, page: &mut Page) {
        match self.rule {
            Rule::Order(a, b) => page.put(&[2, a, b]),
            Rule::Need(a, b) => page.put(&[3, a, b]),
            Rule::Conditional(a, b, c) => page.put(&[4, a, b, c]),
        }
    }
}

// A record of kind 7, if the event at the place has a window.
impl Declared for Window {
    ghost bytes = { window_record };

    fn put(&self, place: u8, page: &mut Page) {
        if self.until != 0 {
            page.put(&[7, place]);
            page.put(&self.from.to_le_bytes());
            page.put(&self.until.to_le_bytes());
        }
    }
}

// A record for each thing declared, in the order of their places.
fn put_all<T: Declared>(page: &mut Page, declared: &[T])
    requires few { length declared.now ≤ 16 }
    requires room { HasRoom page.old (records T.bytes 0 declared.now) }
    ensures { page.new ≡ page.old ++ records T.bytes 0 declared.now }
{
    for (place, item) in declared.iter().enumerate() {
        item.put(place as u8, page);
    }
}

// The events, the rules, the windows and the end record.
pub(crate) fn put_sheet(page: &mut Page, plan: Plan)
    requires events { event_count plan ≤ 16 }
    requires rules { rule_count plan ≤ 16 }
    requires room { HasRoom page.old (sheet_bytes plan) }
    ensures { page.new ≡ page.old ++ sheet_bytes plan }
{
    let events = plan.event_count as usize;
    let rules = plan.rule_count as usize;
    put_all(page, &plan.events[..events]);
    put_all(page, &plan.rules[..rules]);
    put_all(page, &plan.windows[..events]);
    page.push(5);
}
