// What the matchers answer.
use matchers::{Matcher, Pattern, Without, WordList};

// What a matcher is to answer of a name: `yes` or `no`.
#[derive(Clone, Copy)]
pub struct Question<'a> {
    pub name: &'a [u8],
    pub answer: &'a [u8],
}

impl Question<'_> {
    // Whether the matcher answers so.
    pub fn holds<M: Matcher>(self, matcher: &M) -> bool {
        let found: &[u8] = if matcher.is_match(self.name) {
            b"yes"
        } else {
            b"no"
        };
        found == self.answer
    }
}

// One of the words; an empty one where there are no more.
fn at(words: &[Vec<u8>], i: usize) -> &[u8] {
    match words.get(i) {
        Some(word) => word.as_slice(),
        None => b"",
    }
}

// words|ANSWER|NAME, with up to three words behind it
pub fn words_hold(question: Question, words: &[Vec<u8>]) -> bool {
    let room: &[&[u8]] = &[at(words, 0), at(words, 1), at(words, 2)];
    match room.get(..words.len()) {
        Some(words) => question.holds(&WordList { words }),
        None => false,
    }
}

// without|ANSWER|TAKE|LEAVE|NAME, of both matchers that leave a pattern out
pub fn without_holds(question: Question, take: &[u8], leave: &[u8]) -> bool {
    let include = Pattern { bytes: take };
    let exclude = Pattern { bytes: leave };
    question.holds(&Without { include, exclude })
        && question.holds(&Without {
            include,
            exclude: Some(exclude),
        })
}

// only|ANSWER|TAKE|NAME
pub fn only_holds(question: Question, take: &[u8]) -> bool {
    let include = Pattern { bytes: take };
    let exclude: Option<Pattern> = None;
    question.holds(&Without { include, exclude })
}
