// Reading a sheet record after record, until a fault or its end.
ghost use Rattle.std.specs.Prelude.{◌≡◌, IfOk, IfErr};
ghost use Rattle.plan.specs.Sheets.{sheet_plan};
ghost use Rattle.scheduler.specs.Sheet.{read_sheet};
ghost use Rattle.sheet.specs.Internal.Progress.{plan_of, IsFine, IsFaulty};

use super::declare::{declare, first_state};
use super::fault::check_record;
use super::kind::Kind;
use super::reader::Reader;
use checks::plans::empty_plan;
use plan::answer::{Refusal, SheetFault};
use plan::plan::Plan;
use plan::record::Record;
use scheduler::reply::Reading;

// Admits a sheet, or turns it down with its first fault and the fault's offset. An admitted sheet gives its first
// state, a sheet turned down the empty state.
pub fn read_sheet(sheet: &[u8]) -> Reading
    ensures { result ≡ read_sheet sheet.now }
{
    match read_plan(sheet) {
        Ok(plan) => Reading {
            verdict: Ok(()),
            state: first_state(plan),
        },
        Err(refusal) => Reading {
            verdict: Err(refusal),
            state: first_state(empty_plan()),
        },
    }
}

// What a sheet declares, or why it is turned down.
fn read_plan(sheet: &[u8]) -> Result<Plan, Refusal>
    ensures { result ≡ plan_of (sheet_plan sheet.now) }
{
    let mut reader = Reader::new(sheet);
    let mut plan = empty_plan();
    loop {
        let (kind, rec) = checked_record(&reader, &plan)?;
        if kind == Kind::End {
            break;
        }
        declare(&mut plan, kind, rec);
        reader.move_past(rec);
    }
    // Nothing may follow kind 5.
    if reader.at + 1 < sheet.len() {
        return Err(Refusal {
            fault: SheetFault::Extra,
            at: reader.at + 1,
        });
    }
    Ok(plan)
}

// The record at the reader's place with its kind, or why it turns the sheet down.
fn checked_record(reader: &Reader, plan: &Plan) -> Result<(Kind, Record), Refusal>
    ensures fine { IfOk result (λ r. IsFine plan.now reader.now.sheet.now reader.now.at r.0 r.1) }
    ensures faulty { IfErr result (λ e. IsFaulty plan.now reader.now.sheet.now reader.now.at e) }
{
    let at = reader.at;
    let len = reader.sheet.len();
    let rec = reader.record();
    let check = check_record(plan, len, at, rec);
    // The else branch cannot bind the fault, so the check is mapped there.
    let Ok(kind) = check else {
        return check
            .map(|kind| (kind, rec))
            .map_err(|fault| Refusal { fault, at });
    };
    Ok((kind, rec))
}
