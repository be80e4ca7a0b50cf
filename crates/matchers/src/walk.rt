// The walk over a pattern and a name. It remembers only the last `*`, so its turns stay within the product of the
// lengths, each with one added.
ghost use Rattle.std.specs.Prelude.{◌≡◌, ◌+◌, ◌*◌, ◌<◌, ◌≤◌, true, false, length, MatchOption};
ghost use Rattle.matchers.specs.Patterns.{matched};
ghost use Rattle.matchers.specs.Walks.{all_runs, answers, taking, Sound, Turned};

// What is still to go of the pattern and of the name.
#[derive(Clone, Copy)]
pub(crate) struct Place<'a> {
    pub(crate) pattern: &'a [u8],
    pub(crate) name: &'a [u8],
}

// Where the walk is, and, behind the last `*` that it has met, where the present attempt began.
#[derive(Clone, Copy)]
pub(crate) struct Walk<'a> {
    pub(crate) at: Place<'a>,
    pub(crate) retry: Option<Place<'a>>,
}

// The answer, and how many turns it took: each walk has both.
#[derive(Clone, Copy)]
pub(crate) struct Outcome {
    pub(crate) matched: bool,
    pub(crate) turns: u128,
}

// Whether a byte of a pattern that is no `*` stands for this byte: it is a `?` or the byte itself.
fn takes(byte: u8, next: u8) -> bool
    ensures { result ≡ taking byte next }
{
    byte == b'?' || byte == next
}

// Whether only `*` is still to go of the pattern.
fn is_all_runs(pattern: &[u8]) -> bool
    ensures { result ≡ all_runs pattern.now }
{
    pattern.iter().all(|b| *b == b'*')
}

// One turn before the end of the name: past a `*`, which is remembered; past a byte that is taken; or back to the last
// `*`, which then takes one byte more. None where there is no `*` to go back to.
fn step<'a>(walk: Walk<'a>) -> Option<Walk<'a>>
    requires sound { Sound walk }
    requires within { 0 < length walk.at.name.now }
    ensures { MatchOption result (answers walk.entry ≡ false) (λ next. Turned walk.entry next) }
{
    let Walk { at, retry } = walk;
    match (at.pattern, at.name) {
        ([b'*', pattern @ ..], _) => {
            let behind = Place { pattern, ..at };
            Some(Walk {
                at: behind,
                retry: Some(behind),
            })
        }
        ([first, pattern @ ..], [byte, name @ ..]) if takes(*first, *byte) => Some(Walk {
            at: Place { pattern, name },
            retry,
        }),
        _ => {
            let last = retry?;
            let again = Place {
                name: &last.name[1..],
                ..last
            };
            Some(Walk {
                at: again,
                retry: Some(again),
            })
        }
    }
}

// Whether the pattern means the name, in at most as many turns as the product of the lengths, each with one added; and a
// match takes at least a turn for each byte of the name.
pub(crate) fn run<'a>(pattern: &'a [u8], name: &'a [u8]) -> Outcome
    ensures answer { result.matched ≡ matched pattern.now name.now }
    ensures bound { result.turns ≤ (length pattern.now + 1) * (length name.now + 1) }
    ensures count { result.matched ≡ true → length name.now ≤ result.turns }
{
    let mut walk = Walk {
        at: Place { pattern, name },
        retry: None,
    };
    let mut turns = 0;
    while !walk.at.name.is_empty() {
        let Some(next) = step(walk) else {
            return Outcome {
                matched: false,
                turns,
            };
        };
        walk = next;
        turns += 1;
    }
    Outcome {
        matched: is_all_runs(walk.at.pattern),
        turns,
    }
}
