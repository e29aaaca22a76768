// Plays all members of a circle in memory.
#![tactic(auto)]

use console::Failure;
use runs::Outcome;
use sheets::{Refusal, Sheet};
use std::io::Write;
use std::process::ExitCode;

const USAGE: &str = "usage: circle SHEET INPUTS ORDER [WATCHED ..]";

// Reads the files in the order of the arguments, plays the sheet, and prints what was opened and what is seen.
fn play(rt: &HostRuntime, words: &[String]) -> Result<(), Failure> {
    let heap = rt.alloc();
    let [sheet, inputs, order, watched @ ..] = words else {
        return Err(Failure::Usage(USAGE));
    };
    let watched = console::member_words(heap, watched)?.ok_or(Failure::Usage(USAGE))?;
    let sheet = Sheet::read(heap, &console::file(rt, sheet.as_str())?)?;
    let inputs = files::read_circle_inputs(
        heap,
        sheet.members(),
        &console::file(rt, inputs.as_str())?,
    )?;
    let _ = files::read_order(heap, &console::file(rt, order.as_str())?)?;
    let set = console::member_set(sheet.members(), &watched).ok_or(Refusal::WrongAddress)?;
    let figures = files::lend(heap, &inputs.figures)?;
    let coins = files::lend(heap, &inputs.coins)?;
    let outcome = runs::run(heap, &sheet, &figures, &coins, &set)?;
    print(rt, &outcome, !watched.is_empty())
}

// What was opened, one number to a line; where members are watched, an empty line and what they see.
fn print(rt: &HostRuntime, outcome: &Outcome, watched: bool) -> Result<(), Failure> {
    let mut out = console::output(rt)?;
    console::write_lines(&mut out, &outcome.opened)?;
    if watched {
        writeln!(out, "")?;
        console::write_lines(&mut out, &outcome.seen)?;
    }
    Ok(out.flush()?)
}

fn main(rt: HostRuntime) -> ExitCode {
    console::run_program(&rt, USAGE, play)
}
