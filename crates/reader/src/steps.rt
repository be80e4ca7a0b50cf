// What a byte does, by what the reader waits for.
ghost use Rattle.std.specs.Prelude.{◌≡◌, ◌+◌, ◌-◌, ◌<◌, true, [], ◌∷◌};
ghost use Rattle.grammar.specs.Scan.{on_to, open_bracket, close_bracket, on_letter, on_name, kind_named, on_number, on_digit, on_flags, on_flag, between, on_quote, on_byte, next, start_of, flags_of, place_in, lower, fault_after, is_flag};
ghost use Rattle.reader.specs.View.{view, stepped, phase_of, letters_of, unwound, open_of};
ghost use Rattle.reader.specs.Room.{Room};

use crate::entries::grown;
use crate::open::{Effect, Open, State, Unread};
use crate::reader::Reader;
use crate::word::Word;
use pages::{CLEARED, Flags, LEVEL_LIMIT, NO_FLAGS, Part, Place, is_shapely};

// The lower of the faulty node found so far and this one.
fn lower(fault: Option<usize>, number: usize) -> Option<usize>
    ensures { result ≡ lower fault number }
{
    Some(fault.map_or(number, |found| found.min(number)))
}

impl Reader {
    // Waits for something else, and adds nothing.
    fn go(&mut self, state: State) -> Result<Effect, Unread>
        ensures { stepped self.new result ≡ on_to (phase_of state) (view self.old) }
    {
        self.state = state;
        Ok(Effect::Quiet)
    }

    // A bracket opens: one child more for the innermost, and a new entry.
    fn open(&mut self) -> Result<Effect, Unread>
        requires { Room self.old }
        ensures { stepped self.new result ≡ open_bracket (view self.old) }
    {
        if self.depth >= LEVEL_LIMIT {
            return Err(Unread);
        }
        let number = self.nodes;
        self.change(|row| row.children += 1);
        self.stack[self.depth] = Open {
            row: CLEARED,
            number,
        };
        self.depth += 1;
        self.nodes = number + 1;
        self.state = State::Opened;
        Ok(Effect::Quiet)
    }

    // Where the node of the innermost bracket stands.
    fn place(&self) -> Place
        ensures { result ≡ place_in (unwound (self.now.depth - 1) self.now.stack) }
    {
        match &self.stack[..self.depth] {
            [.., Open { row, .. }, _] => {
                Place::Child(row.kind, row.flags, row.children.saturating_sub(1))
            }
            _ => Place::Root,
        }
    }

    // The lowest faulty node, once the node of this innermost bracket is counted.
    fn fault_after(&self, innermost: Open) -> Option<usize>
        ensures { result ≡ fault_after (open_of innermost) (unwound (self.now.depth - 1) self.now.stack) (view self.now) }
    {
        if is_shapely(self.place(), &innermost.row, self.bytes) {
            self.fault
        } else {
            lower(self.fault, innermost.number)
        }
    }

    // A bracket closes: its row is done.
    fn close(&mut self) -> Result<Effect, Unread>
        ensures { stepped self.new result ≡ close_bracket (view self.old).stack (view self.old) }
    {
        let innermost = *self.innermost().ok_or(Unread)?;
        self.fault = self.fault_after(innermost);
        self.depth -= 1;
        self.state = if self.depth == 0 {
            State::After
        } else {
            State::Inside
        };
        Ok(Effect::Done(innermost))
    }

    // One letter more of a kind's name.
    fn letter(&mut self, word: Word, b: u8) -> Result<Effect, Unread>
        ensures { stepped self.new result ≡ on_letter (letters_of word) (view self.old) b }
    {
        let word = word.with(b).ok_or(Unread)?;
        self.go(State::Word(word))
    }

    // The blank after a kind's name.
    fn name(&mut self, word: Word) -> Result<Effect, Unread>
        ensures { stepped self.new result ≡ on_name (kind_named (letters_of word)) (view self.old) }
    {
        let kind = word.kind().ok_or(Unread)?;
        self.change(|row| row.kind = kind);
        self.go(State::Named)
    }

    // The start becomes this number.
    fn number(&mut self, start: u32) -> Result<Effect, Unread>
        ensures { stepped self.new result ≡ on_number start (view self.old) }
    {
        self.change(|row| row.start = start);
        self.go(State::Start)
    }

    // One digit more: none after a first 0, and none that takes the start over 32 bits.
    fn digit(&mut self, d: u8) -> Result<Effect, Unread>
        requires { d < 10 }
        ensures { stepped self.new result ≡ on_digit (view self.old) d }
    {
        let start = self.innermost().map_or(0, |open| open.row.start);
        if start == 0 {
            return Err(Unread);
        }
        let more = start
            .checked_mul(10)
            .and_then(|tens| tens.checked_add(u32::from(d)))
            .ok_or(Unread)?;
        self.number(more)
    }

    // The opening quote: a text that begins at the next byte.
    fn quote(&mut self) -> Result<Effect, Unread>
        ensures { stepped self.new result ≡ on_quote (view self.old) }
    {
        let part = Part {
            offset: self.bytes,
            length: 0,
        };
        self.change(|row| row.text = Some(part));
        self.go(State::Text)
    }

    // A blank or a bracket after a part; a blank leads to this state.
    fn between(&mut self, state: State, b: u8) -> Result<Effect, Unread>
        requires { Room self.old }
        ensures { stepped self.new result ≡ between (phase_of state) (view self.old) b }
    {
        match char::from(b) {
            ' ' | '\n' => self.go(state),
            '(' => self.open(),
            ')' => self.close(),
            _ => Err(Unread),
        }
    }

    // The flags become these.
    fn mark(&mut self, flags: Flags) -> Result<Effect, Unread>
        ensures { stepped self.new result ≡ on_flags flags (view self.old) }
    {
        self.change(|row| row.flags = flags);
        self.go(State::Flags)
    }

    // One flag more: o before c before s, each once.
    fn flag(&mut self, b: u8) -> Result<Effect, Unread>
        requires { is_flag b ≡ true }
        ensures { stepped self.new result ≡ on_flag (flags_of (view self.old).stack) (view self.old) b }
    {
        let flags = self.innermost().map_or(NO_FLAGS, |open| open.row.flags);
        match char::from(b) {
            'o' if flags == NO_FLAGS => self.mark(Flags {
                optional: true,
                ..flags
            }),
            'c' if !flags.computed && !flags.shorthand => self.mark(Flags {
                computed: true,
                ..flags
            }),
            's' if !flags.shorthand => self.mark(Flags {
                shorthand: true,
                ..flags
            }),
            _ => Err(Unread),
        }
    }

    // One byte more of a text.
    fn byte(&mut self, b: u8) -> Result<Effect, Unread>
        requires { Room self.old }
        ensures { stepped self.new result ≡ on_byte (view self.old) b }
    {
        let at = self.bytes;
        self.change(|row| row.text = Some(grown(row.text)));
        self.bytes = at + 1;
        self.state = State::Text;
        Ok(Effect::Text(b, at))
    }

    // What one byte does: by the project's rules, one match on the reader's state and the byte as a `char`.
    pub(crate) fn take(&mut self, b: u8) -> Result<Effect, Unread>
        requires { Room self.old }
        ensures { stepped self.new result ≡ next (view self.old) b }
    {
        match (self.state, char::from(b)) {
            (State::Before, ' ' | '\n') => self.go(State::Before),
            (State::Before, '(') => self.open(),
            (State::Before, _) => Err(Unread),
            (State::Opened, ' ' | '\n') => self.go(State::Opened),
            (State::Opened, _) => self.letter(Word::new(), b),
            (State::Word(word), ' ' | '\n') => self.name(word),
            (State::Word(word), _) => self.letter(word, b),
            (State::Named, ' ' | '\n') => self.go(State::Named),
            (State::Named, '@') => self.go(State::Starting),
            (State::Named, _) => Err(Unread),
            (State::Starting, '0'..='9') => self.number(u32::from(b - b'0')),
            (State::Starting, _) => Err(Unread),
            (State::Start, '0'..='9') => self.digit(b - b'0'),
            (State::Start, _) => self.between(State::Started, b),
            (State::Started, '"') => self.quote(),
            (State::Started, 'o' | 'c' | 's') => self.flag(b),
            (State::Started, _) => self.between(State::Started, b),
            (State::Flags, 'o' | 'c' | 's') => self.flag(b),
            (State::Flags, _) => self.between(State::Flagged, b),
            (State::Flagged, '"') => self.quote(),
            (State::Flagged, _) => self.between(State::Flagged, b),
            (State::Text, '"') => self.go(State::Inside),
            (State::Text, '\\') => self.go(State::Escape),
            (State::Text, ' '..='~') => self.byte(b),
            (State::Text, _) => Err(Unread),
            (State::Escape, '"' | '\\') => self.byte(b),
            (State::Escape, '0'..='9') => self.go(State::Hex(b - b'0')),
            (State::Escape, 'a'..='f') => self.go(State::Hex(b - b'a' + 10)),
            (State::Escape, _) => Err(Unread),
            (State::Hex(high), '0'..='9') => self.byte(16 * high + (b - b'0')),
            (State::Hex(high), 'a'..='f') => self.byte(16 * high + (b - b'a' + 10)),
            (State::Hex(_), _) => Err(Unread),
            (State::Inside, _) => self.between(State::Inside, b),
            (State::After, ' ' | '\n') => self.go(State::After),
            (State::After, _) => Err(Unread),
        }
    }
}
