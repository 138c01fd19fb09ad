// Checks a survey of pipe lengths against a box: reads it from standard input, line by line, and prints what
// the box would do with each length, the corrected records to write back, and a summary.

#![tactic(auto)]

use inspection::refused::KEPT_LINES;
use inspection::session::Session;
use inspection::totals::Totals;
use std::io;
use std::io::Read;
use survey::write_back::ROWS;
use survey_text::lines::Line;

// Prints the corrected records to write back.
fn print_rows(rt: &HostRuntime, session: &Session) -> io::Result<()> {
    for row in session.rows() {
        println!(rt; "write: {row}")?;
    }
    Ok(())
}

// Prints how many lengths came, and what those that fit weigh.
fn print_totals(rt: &HostRuntime, session: &Session) -> io::Result<()> {
    let totals = session.totals();
    let Totals {
        lengths,
        fits,
        trimmed,
        heavy,
        unjudged,
        weight,
        ..
    } = totals;
    println!(rt; "lengths read: {lengths}")?;
    println!(rt; "  fit as they are: {fits}")?;
    println!(rt; "  fit trimmed: {trimmed}")?;
    println!(rt; "  too heavy: {heavy}")?;
    println!(rt; "  not judged: {unjudged}")?;
    match session.capacity() {
        None => println!(rt; "weight of those that fit: no box was set up"),
        Some(capacity) => {
            let balance = totals.against(capacity);
            println!(rt; "weight of those that fit: {weight} of {capacity}, {balance}")
        }
    }
}

// Prints the lines that were refused, or the first of them where there are many.
fn print_refused(rt: &HostRuntime, session: &Session) -> io::Result<()> {
    let count = session.refused_count();
    println!(rt; "lines refused: {count}")?;
    for refused in session.refused_lines() {
        println!(rt; "  {refused}")?;
    }
    if count > KEPT_LINES as u64 {
        let more = count - KEPT_LINES as u64;
        println!(rt; "  and {more} more, reported above")?;
    }
    Ok(())
}

// A survey that is being read: the inspection, the line that comes in, and its number.
#[derive(Drop)]
struct Reading {
    session: Session,
    line: Line,
    number: u64,
}

impl Reading {
    fn new() -> Reading {
        Reading {
            session: Session::new(),
            line: Line::new(),
            number: 1,
        }
    }

    // Goes on with a whole line, prints what there is to say, and writes full rows.
    fn finish(&mut self, rt: &HostRuntime) -> io::Result<()> {
        let number = self.number;
        let read = self.line.read();
        match self.session.follow(number, read) {
            // not `Ok(Some(report))` and `Ok(None)`: the borrow checker does not cover a pattern that reaches so far
            // into a result whose settings have a ghost field
            Ok(said) => {
                if let Some(report) = said {
                    println!(rt; "line {number}: {report}")?;
                }
            }
            Err(fault) => println!(rt; "line {number}: refused: {fault}")?,
        }
        if self.session.row_count() >= ROWS as u64 {
            print_rows(rt, &self.session)?;
            self.session.next_rows();
        }
        Ok(())
    }

    // Goes on with a chunk of the input.
    fn feed(&mut self, rt: &HostRuntime, chunk: &[u8]) -> io::Result<()> {
        for byte in chunk {
            if *byte == b'\n' {
                self.finish(rt)?;
                self.line.clear();
                self.number = self.number.saturating_add(1);
            } else {
                self.line.push(*byte);
            }
        }
        Ok(())
    }
}

fn main(rt: HostRuntime) -> io::Result<()> {
    let mut reading = Reading::new();
    let mut input = rt.stdin();
    let mut chunk = [0u8; 4096];
    // by chunks: `bytes()` makes a call for each byte, and took twenty times as long; a buffered reader needs
    // the heap. The range only bounds the loop, since a program's loop ends
    for _ in 0..u64::MAX {
        let Ok(got) = input.read(&mut chunk) else {
            println!(rt; "standard input can't be read any further")?;
            break;
        };
        if got == 0 {
            break;
        }
        reading.feed(&rt, &chunk[0..got])?;
    }
    reading.finish(&rt)?;
    let session = &reading.session;
    print_rows(&rt, session)?;
    print_totals(&rt, session)?;
    let corrected = session.totals().corrected;
    println!(rt; "records to write back: {corrected}")?;
    print_refused(&rt, session)
}
