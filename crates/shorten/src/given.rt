// What the command line gives: options are taken one after the other, each with the words that it wants.
ghost use Rattle.std.specs.Prelude.{◌<◌, ◌≤◌, IfOk, OnOk, IsSome};
ghost use Rattle.std.specs.Vec.Iter.{into_iter_len};

use crate::print::refused;
use anyhow::anyhow;
use options::{ManglePropertyCache, Places, ReservedWords};
use pages::Refusal;
use std::env::Args;

// Why the words are not taken to their end.
#[derive(Drop)]
pub enum Stop {
    // the next of them is `--help`
    Help,
    // an error that ends the program
    Failed(anyhow::Error),
}

impl From<anyhow::Error> for Stop {
    fn from(error: anyhow::Error) -> Stop {
        Stop::Failed(error)
    }
}

#[derive(Drop)]
pub struct Given<'a> {
    pub cache: ManglePropertyCache<'a>,
    pub reserved: ReservedWords<'a>,
    pub places: Places<'a>,
    // the names that are to be shortened: those that match `take` and do not match `leave`
    pub take: String,
    pub leave: Option<String>,
}

// Tells which word is unknown or misplaced; the error ends the program with status 1.
fn unknown(rt: &impl Eprint, word: &str) -> anyhow::Error {
    let told = eprintln!(rt;
        "shorten: unknown or misplaced argument; shorten --help tells what there is\n{word}"
    );
    told.map_or_else(anyhow::Error::from, |()| anyhow!("unknown argument"))
}

// The next word, where there is one.
pub fn next_word(words: &mut Args) -> Result<Option<String>, Stop>
    ensures { IfOk result (λ word. IsSome word → into_iter_len words.new < into_iter_len words.old) }
{
    match words.next() {
        Some(word) if word.as_str() == "--help" => Err(Stop::Help),
        word => Ok(word),
    }
}

// The word that an option wants.
fn wanted(rt: &impl Eprint, words: &mut Args) -> Result<String, Stop>
    ensures { OnOk result (into_iter_len words.new ≤ into_iter_len words.old) }
{
    let word = next_word(words)?;
    Ok(word.ok_or_else(|| unknown(rt, "(the end of the arguments)"))?)
}

impl Given<'_> {
    // Takes an option, and the words that it wants.
    pub fn take(
        &mut self,
        rt: &(impl Print + Eprint),
        option: &str,
        words: &mut Args,
    ) -> Result<(), Stop>
        ensures { OnOk result (into_iter_len words.new ≤ into_iter_len words.old) }
    {
        let told = |refusal: Refusal| refused(rt, refusal);
        match option {
            "--pin" => {
                let name = wanted(rt, words)?;
                let target = wanted(rt, words)?;
                self.cache
                    .pin(name.as_bytes(), target.as_bytes())
                    .map_err(told)?;
            }
            "--keep" => {
                let name = wanted(rt, words)?;
                self.cache.keep(name.as_bytes()).map_err(told)?;
            }
            "--reserve" => {
                let name = wanted(rt, words)?;
                self.reserved.reserve(name.as_bytes()).map_err(told)?;
            }
            "--place" => {
                let word = wanted(rt, words)?;
                let start = word.parse::<u32>().map_err(|_| unknown(rt, word.as_str()))?;
                self.places.add(start).map_err(told)?;
            }
            "--take" => self.take = wanted(rt, words)?,
            "--leave" => self.leave = Some(wanted(rt, words)?),
            _ => Err(unknown(rt, option))?,
        }
        Ok(())
    }
}
