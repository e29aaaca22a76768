// Tells the coins of another story that looks the same to the watched.
#![tactic(auto)]

use console::Failure;
use pairing::Pairing;
use sheets::Sheet;
use std::io::Write;
use std::process::ExitCode;

const USAGE: &str = "usage: pair SHEET FIRST SECOND [WATCHED ..]";

// Reads the files in the order of the arguments, pairs the coins, and prints the answer.
fn play(rt: &HostRuntime, words: &[String]) -> Result<(), Failure> {
    let heap = rt.alloc();
    let [sheet, first, second, watched @ ..] = words else {
        return Err(Failure::Usage(USAGE));
    };
    let watched = console::member_words(heap, watched)?.ok_or(Failure::Usage(USAGE))?;
    let sheet = Sheet::read(heap, &console::file(rt, sheet.as_str())?)?;
    let first = files::read_circle_inputs(
        heap,
        sheet.members(),
        &console::file(rt, first.as_str())?,
    )?;
    let second = files::read_circle_figures(
        heap,
        sheet.members(),
        &console::file(rt, second.as_str())?,
    )?;
    let coins = files::lend(heap, &first.coins)?;
    let figures = files::lend(heap, &first.figures)?;
    let other = files::lend(heap, &second)?;
    let answer = pairing::pair(heap, &sheet, &watched, &coins, &figures, &other)?;
    print(rt, &sheet, &answer)
}

// No `Display` of the answer: how many coins are printed is the sheet's to say.
fn print(rt: &HostRuntime, sheet: &Sheet, answer: &Pairing) -> Result<(), Failure> {
    match answer {
        Pairing::Coins(lists) => print_coins(rt, sheet, lists),
        Pairing::OpenedDiffers(place) => Ok(println!(rt; "opened {place} differs")?),
        Pairing::FigureDiffers(member, place) => {
            Ok(println!(rt; "figure {place} of member {member} differs")?)
        }
        Pairing::NoPairing => Ok(rt.println("no pairing")?),
    }
}

// Member by member, as many coins as each draws, one number to a line.
fn print_coins(rt: &HostRuntime, sheet: &Sheet, lists: &[Vec<u32>]) -> Result<(), Failure> {
    let mut out = console::output(rt)?;
    for (member, list) in (1u32..).zip(lists) {
        let drawn = sheet.coins_needed(member).min(list.len());
        console::write_lines(&mut out, &list[..drawn])?;
    }
    Ok(out.flush()?)
}

fn main(rt: HostRuntime) -> ExitCode {
    console::run_program(&rt, USAGE, play)
}
