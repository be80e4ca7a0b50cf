// Reads a page listing from standard input, checks it, and prints it in the writer's form, after the cache
// that the command line gives.
#![tactic(auto)]

mod given;
mod print;

use given::{Given, Stop, next_word};
use matchers::{Matcher, Pattern, Without};
use options::{CACHE_LIMIT, ManglePropertyCache, PLACE_LIMIT, Places, ReservedWords, WORD_LIMIT};
use pages::{NODE_LIMIT, Nodes, Row, TEXT_LIMIT};
use print::{print_cache, print_page, refused};
use reader::{Size, read};
use std::env;
use std::env::Args;
use std::io::Read;
use table::Entry;

const HELP: &str =
    "shorten: reads a page listing from standard input, checks it, and prints it in the form of the writer.

    shorten [OPTION ...] < PAGE      prints the cache and the page; or the line (refused NUMBER PLACE), and ends with status 1
    shorten --help                   prints this text

    --pin NAME TARGET    the property NAME is to become TARGET
    --keep NAME          the property NAME is to stay as it is
    --reserve NAME       no property becomes NAME
    --place N            the literal that starts at N is a key
    --take PATTERN       only names that match are shortened; * stands for any run of bytes, ? for one (default *)
    --leave PATTERN      names that match are not

Of several --take, or several --leave, the last counts; both take effect once names are assigned.
Options are taken in their order, before the page is read.
Refusals: 1 misshapen (the node), 2 deep (the node), 3 unread (the byte), 4 long, 5 foreign, 6 bad pin, 9 overfull (0).
docs/RULES.md says what a listing is, and when each refusal comes.
";

// Reads the page, and prints the cache and then the page; of a refused page only the refusal. By a match, since after
// `?` a proof loses that the page lies within the memory.
// No name is shortened yet, so what the matcher means changes nothing.
fn page<M: Matcher>(
    rt: &(impl Input + Print + AllocGlobal),
    cache: &ManglePropertyCache,
    _matcher: &M,
) -> anyhow::Result<()> {
    let heap = rt.alloc();
    let mut listing = Vec::new(heap);
    rt.reader().read_to_end(&mut listing)?;
    let mut rows = vec![in heap; Row::default(); NODE_LIMIT]?;
    let mut text = vec![in heap; 0u8; TEXT_LIMIT]?;
    match read(&listing, &mut rows, &mut text) {
        Err(refusal) => Err(refused(rt, refusal)),
        Ok(Size { nodes, bytes }) => {
            print_cache(rt, cache)?;
            print_page(
                rt,
                Nodes {
                    rows: &rows[..nodes],
                    text: &text[..bytes],
                },
            )
        }
    }
}

// Handles the page with the matcher that the patterns make.
fn chosen_page(rt: &(impl Input + Print + AllocGlobal), given: &Given) -> anyhow::Result<()> {
    let matcher = Without {
        include: Pattern {
            bytes: given.take.as_bytes(),
        },
        exclude: given.leave.as_ref().map(|pattern| Pattern {
            bytes: pattern.as_bytes(),
        }),
    };
    page(rt, &given.cache, &matcher)
}

// Takes the words of the command line to their end.
fn take_all(rt: &(impl Print + Eprint), given: &mut Given, mut words: Args) -> Result<(), Stop> {
    while let Some(option) = next_word(&mut words)? {
        given.take(rt, option.as_str(), &mut words)?;
    }
    Ok(())
}

// Takes the words of the command line, of which the first is the program's name, and then the page.
fn main(rt: HostRuntime) -> anyhow::Result<()> {
    let heap = rt.alloc();
    let mut pins = vec![in heap; Entry::default(); CACHE_LIMIT]?;
    let mut words = vec![in heap; Entry::default(); WORD_LIMIT]?;
    let mut starts = vec![in heap; Entry::default(); PLACE_LIMIT]?;
    let mut given = Given {
        cache: ManglePropertyCache::new(&mut pins),
        reserved: ReservedWords::new(&mut words),
        places: Places::new(&mut starts),
        take: String::from_str(heap, "*")?,
        leave: None,
    };
    let mut args = env::args(&rt)?;
    args.next();
    match take_all(&rt, &mut given, args) {
        Ok(()) => chosen_page(&rt, &given),
        Err(Stop::Help) => Ok(rt.print(HELP)?),
        Err(Stop::Failed(error)) => Err(error),
    }
}
