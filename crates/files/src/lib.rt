// Reads sheet.bin and calls.bin in the working directory and prints the report on standard output. If a file or the
// output fails, one line on standard error says so, and so does the answer, which the program files_c gives as its exit
// status.
#![tactic(auto)]

ghost use Rattle.std.specs.Prelude.{◌≤◌, min, ◌≡◌, length, IfOk};
ghost use Rattle.std.specs.Counts.{IsPrefixLen};
ghost use Rattle.scheduler.specs.Runner.{run_of, report};
ghost use Rattle.files.specs.Status.{Status};

use std::fs;
use std::io::{self, Error, ErrorKind, Read, Write};
use std::rt::Files;

// How many bytes of a file count.
const LIMIT: usize = 65536;

// A file or the report failed, and standard error says how.
#[derive(Clone, Copy)]
struct Failed;

// Reads the two files, runs the calls and prints the report. Answers 0, or 1 if a file or the report failed.
pub fn sinewhopa_files<R: Files + Print + Eprint>(rt: &R) -> i32
    ensures { Status result }
{
    match report_files(rt) {
        Ok(()) => 0,
        Err(Failed) => 1,
    }
}

// Reads the two files, runs the calls and prints the report.
fn report_files<R: Files + Print + Eprint>(rt: &R) -> Result<(), Failed> {
    // One byte more than the limit shows whether a file goes on past it.
    let mut sheet = [0u8; LIMIT + 1];
    let mut calls = [0u8; LIMIT + 1];
    let sheet_len = read_file(rt, "sheet.bin", &mut sheet)?;
    let calls_len = read_file(rt, "calls.bin", &mut calls)?;
    print_run(rt, &sheet[..sheet_len], &calls[..calls_len])
}

// Runs the calls on the sheet and prints the report.
fn print_run<R: Print + Eprint>(rt: &R, sheet: &[u8], calls: &[u8]) -> Result<(), Failed> {
    let mut out = [0u8; 320];
    let outcome = lists::run::run(sheet, calls);
    let n = report::write_report(outcome, &mut out);
    print_report(rt, sheet, calls, &out[..n])
}

// Writes the report of the sheet and the calls, and no other text.
fn print_report<R: Print + Eprint>(
    rt: &R,
    sheet: &[u8],
    calls: &[u8],
    text: &[u8],
) -> Result<(), Failed>
    requires { text.now ≡ report (run_of sheet.now calls.now) }
{
    rt.write_all(text)
        .map_err(|error| fail(rt, "standard output", &error))
}

// Reads the start of a file, at most LIMIT bytes, and answers how many. A missing file counts as empty. If a file goes
// on past the limit, standard error says so too.
fn read_file<R: Files + Eprint>(rt: &R, path: &str, buf: &mut [u8]) -> Result<usize, Failed>
    ensures prefix_len { IfOk result (λ n. IsPrefixLen n buf.new) }
    ensures len_bound { IfOk result (λ n. n ≤ 65536) }
{
    let mut file = match fs::open(rt, path) {
        Ok(file) => file,
        Err(error) if error.kind() == ErrorKind::NotFound => return Ok(0),
        Err(error) => return Err(fail(rt, path, &error)),
    };
    let len = fill(&mut file, buf).map_err(|error| fail(rt, path, &error))?;
    Ok(cut(rt, path, len))
}

// Reads until the buffer is full or the file ends, and answers how many bytes were read.
fn fill<F: Read>(file: &mut F, buf: &mut [u8]) -> io::Result<usize>
    ensures { IfOk result (λ n. n ≤ length buf.new) }
{
    let mut done = 0;
    while done < buf.len() {
        let more = file.read(&mut buf[done..])?;
        if more == 0 {
            break;
        }
        done += more;
    }
    Ok(done)
}

// How many of the bytes that were read count: at most LIMIT. If there are more, standard error says so.
fn cut<R: Eprint>(rt: &R, path: &str, len: usize) -> usize
    ensures { result ≡ min len 65536 }
{
    if LIMIT < len {
        let _ = eprintln!(rt; "{path}: more than 65,536 bytes; the rest is not read");
    }
    len.min(LIMIT)
}

// One line on standard error: what failed, and the system's reason. Nothing is left to be done if that fails too.
fn fail<R: Eprint>(rt: &R, what: &str, error: &Error) -> Failed {
    let mut buf = [0u8; 128];
    let reason = reason_of(error, &mut buf);
    let _ = eprintln!(rt; "{what}: {reason}");
    Failed
}

// The system's reason alone: std writes its number behind it, as in "Is a directory (os error 21)".
fn reason_of<'a>(error: &Error, buf: &'a mut [u8; 128]) -> &'a str {
    let len = write_error(error, buf);
    let text = str::from_utf8(&buf[..len]).unwrap_or("");
    match text.split_once(" (os error ") {
        Some((reason, _)) => reason,
        None => text,
    }
}

// Writes what std says of an error to the start of the buffer, and answers its length. What has no room is left out.
fn write_error(error: &Error, buf: &mut [u8; 128]) -> usize
    ensures { result ≤ 128 }
{
    let mut rest: &mut [u8] = buf;
    let _ = write!(rest, "{error}");
    let left = rest.len();
    128 - left.min(128)
}
