// Replays a table of matchers and spellers, each line with what has to come of it:
//     match|ANSWER|PATTERN|NAME
//     words|ANSWER|NAME|WORD ..        no word to three words
//     without|ANSWER|TAKE|LEAVE|NAME
//     only|ANSWER|TAKE|NAME            nothing is left out
//     short|N|TEXT
//     debug|NAME|N|TEXT
// ANSWER is `yes` or `no`, and TEXT is `none` where there is no spelling.
// Each line that does not hold is printed, and then how many there were.
#![tactic(auto)]

mod matching;
mod mute;
mod spelling;

use cases::{expanded, number};
use matchers::Pattern;
use matching::{Question, only_holds, without_holds, words_hold};
use mute::introduce_all;
use spelling::{debug_holds, short_holds};
use std::alloc::{AllocError, Global};
use std::io::{BufRead, BufReader};

// Whether what a line of this kind says is so; a kind that is not there, or has other fields, says nothing.
fn fields_hold(kind: &str, fields: &[Vec<u8>]) -> bool {
    match (kind, fields) {
        ("match", [answer, pattern, name]) => {
            Question { name, answer }.holds(&Pattern { bytes: pattern })
        }
        ("words", [answer, name, words @ ..]) => words_hold(Question { name, answer }, words),
        ("without", [answer, take, leave, name]) => {
            without_holds(Question { name, answer }, take, leave)
        }
        ("only", [answer, take, name]) => only_holds(Question { name, answer }, take),
        ("short", [n, text]) => short_holds(number(n), text),
        ("debug", [original, n, text]) => debug_holds(original, number(n), text),
        _ => false,
    }
}

// The fields of a line, which `|` separates. Pushed one by one: collected by `try_collect`, many took half again as long.
fn cut(heap: Global, line: &str) -> Result<Vec<Vec<u8>>, AllocError> {
    let mut fields = Vec::new(heap);
    for field in line.split('|') {
        fields.push(expanded(heap, field.as_bytes())?)?;
    }
    Ok(fields)
}

// Whether what a line says is so. All of its fields are made, that of the kind too, whatever the kind is.
fn holds(heap: Global, line: &str) -> Result<bool, AllocError> {
    let fields = cut(heap, line)?;
    Ok(match (line.split_once('|'), fields.as_slice()) {
        (Some((kind, _)), [_, fields @ ..]) => fields_hold(kind, fields),
        _ => false,
    })
}

// `vectors` goes through its lines alike, and tells another thing of one that does not hold: a function for both would
// take two closures, and be no plainer. Both counts are told at the end, so no index of the loop serves.
fn main(rt: HostRuntime) -> anyhow::Result<()> {
    let heap = rt.alloc();
    let mut number = 0u32;
    let mut wrong = 0u32;
    for line in BufReader::new(heap, rt.stdin())?.lines(heap) {
        let line = line?;
        number = number.wrapping_add(1);
        if !holds(heap, line.as_str())? {
            wrong = wrong.wrapping_add(1);
            println!(rt; "line {number} does not hold: {line}")?;
        }
    }
    println!(rt; "{number} lines, {wrong} wrong")?;
    introduce_all(&rt)
}
