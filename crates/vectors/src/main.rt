// Replays tables of pages, each with what has to come of it. A line of standard input is
//     ANSWER|ROWS|BYTES|LISTING
// and says that the listing, read into so many rows and bytes, gives the answer: a refusal's number and
// place, or `read`, or `show`, and then the written form is printed. In a listing `~` and two hexadecimal
// digits stand for a byte, and `{N:TEXT}` for the text N times.
// A line `number|ANSWER|TEXT` or `name|ANSWER|TEXT` says what a text is.
// Each answer that differs is printed, and then how many cases there were.
#![tactic(auto)]

mod answer;
mod given;
mod replay;
mod shapes;
mod words;

use cases::expanded_in_64_bits;
use given::option_answers;
use reader::Size;
use replay::{Outcome, replayed};
use shapes::shape_answers;
use std::alloc::Global;
use std::io;
use std::io::{BufRead, BufReader, Write};
use words::{is_name, is_number};

// A line of the table, cut into its parts.
#[derive(Clone, Copy)]
struct Case<'a> {
    answer: &'a str,
    room: Size,
    listing: &'a str,
}

fn cut(line: &str) -> Option<Case> {
    let (answer, rest) = line.split_once('|')?;
    let (nodes, rest) = rest.split_once('|')?;
    let (bytes, listing) = rest.split_once('|')?;
    let room = Size {
        nodes: nodes.parse::<usize>().ok()?,
        bytes: bytes.parse::<usize>().ok()?,
    };
    Some(Case {
        answer,
        room,
        listing,
    })
}

// Whether a text is what its line says.
fn text_holds<F: Fn(&str, &[u8]) -> bool + Drop>(
    heap: Global,
    is: F,
    line: &str,
) -> anyhow::Result<bool>
    requires { F.IsAlwaysCallable is }
{
    let Some((answer, text)) = line.split_once('|') else {
        return Ok(false);
    };
    let text = expanded_in_64_bits(heap, text.as_bytes())?;
    Ok(is(answer, &text))
}

// Whether a line's page gives its answer.
fn page_holds(rt: &(impl Print + AllocGlobal), line: &str) -> anyhow::Result<bool> {
    let Some(case) = cut(line) else {
        return Ok(false);
    };
    let heap = rt.alloc();
    let listing = expanded_in_64_bits(heap, case.listing.as_bytes())?;
    match replayed(heap, &listing, case.room)? {
        Outcome::Refused(refusal) => {
            let told = format!(in heap; "{refusal}")?;
            Ok(told.as_str() == case.answer)
        }
        Outcome::Read(written) if case.answer == "show" => {
            io::writer(rt).write_all(&written)?;
            Ok(true)
        }
        Outcome::Read(_) => Ok(case.answer == "read"),
        Outcome::Wrong => Ok(false),
    }
}

// Whether what a line says is so.
fn holds(rt: &(impl Print + AllocGlobal), line: &str) -> anyhow::Result<bool> {
    match line.split_once('|') {
        Some(("number", rest)) => text_holds(rt.alloc(), is_number, rest),
        Some(("name", rest)) => text_holds(rt.alloc(), is_name, rest),
        _ => page_holds(rt, line),
    }
}

// `spelling_vectors` goes through its lines alike, and tells another thing of one that does not hold: a function for
// both would take two closures, and be no plainer. Both counts are told at the end, so no index of the loop serves.
fn main(rt: HostRuntime) -> anyhow::Result<()> {
    let heap = rt.alloc();
    let mut number = 0u32;
    let mut wrong = 0u32;
    for line in BufReader::new(heap, rt.stdin())?.lines(heap) {
        let line = line?;
        number = number.wrapping_add(1);
        if !holds(&rt, line.as_str())? {
            wrong = wrong.wrapping_add(1);
            println!(rt; "line {number} of the table does not hold")?;
        }
    }
    println!(rt; "{number} lines, {wrong} wrong")?;
    shape_answers(&rt)?;
    option_answers(&rt)
}
