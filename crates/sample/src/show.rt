// How the sample prints what calls answer and what the readers of a state answer.
use checks::answer::call_fault_number;
use plan::answer::Answer;
use plan::event::Event;
use plan::fate::Fate;
use plan::history::Entry;
use plan::rule::Rule;
use std::{fmt, io};

// A value that is printed in the sample's words.
#[derive(Clone, Copy)]
pub struct Shown<T>(pub T);

// What a reader answers: the value, or that the number is not declared.
impl<T: Copy> fmt::Display for Shown<Option<T>>
where
    Shown<T>: fmt::Display,
{
    fn fmt<W: fmt::Write>(&self, f: &mut fmt::Formatter<W>) -> fmt::Result {
        match self.0 {
            Some(x) => write!(f, "{}", Shown(x)),
            None => write!(f, "undeclared"),
        }
    }
}

impl fmt::Display for Shown<Fate> {
    fn fmt<W: fmt::Write>(&self, f: &mut fmt::Formatter<W>) -> fmt::Result {
        f.write_str(match self.0 {
            Fate::Open => "open",
            Fate::Held => "held",
            Fate::Done => "done",
            Fate::Refused => "refused",
            Fate::Lapsed => "lapsed",
            Fate::Forced => "forced",
        })
    }
}

impl fmt::Display for Shown<Answer> {
    fn fmt<W: fmt::Write>(&self, f: &mut fmt::Formatter<W>) -> fmt::Result {
        match self.0 {
            Answer::Is(fate) => write!(f, "{}", Shown(fate)),
            Answer::Made => write!(f, "made"),
            Answer::TurnedDown(fault) => write!(f, "turned down by {}", call_fault_number(fault)),
        }
    }
}

impl fmt::Display for Shown<bool> {
    fn fmt<W: fmt::Write>(&self, f: &mut fmt::Formatter<W>) -> fmt::Result {
        f.write_str(if self.0 { "yes" } else { "no" })
    }
}

// What `read_event` answers, a write for each number.
pub(crate) fn show_event<R: Print>(rt: &R, read: Option<Event>) -> io::Result<()> {
    match read {
        Some(event) => {
            print!(rt; " step {}", event.step)?;
            print!(rt; " attributes {}", event.attributes)
        }
        None => print!(rt; " undeclared"),
    }
}

// What `read_rule` answers, a write for each number.
pub(crate) fn show_rule<R: Print>(rt: &R, read: Option<Rule>) -> io::Result<()> {
    match read {
        Some(Rule::Order(a, b)) => {
            print!(rt; " order {a}")?;
            print!(rt; " {b}")
        }
        Some(Rule::Need(a, b)) => {
            print!(rt; " need {a}")?;
            print!(rt; " {b}")
        }
        Some(Rule::Conditional(a, b, c)) => {
            print!(rt; " conditional {a}")?;
            print!(rt; " {b}")?;
            print!(rt; " {c}")
        }
        None => print!(rt; " undeclared"),
    }
}

// What `read_line` answers, the event and the fate in a write each, and the end of the line.
pub(crate) fn show_line<R: Print>(rt: &R, read: Option<Entry>) -> io::Result<()> {
    match read {
        Some(entry) => {
            print!(rt; " event {}", entry.event)?;
            println!(rt; " {}", Shown(entry.fate))
        }
        None => println!(rt; " undeclared"),
    }
}
