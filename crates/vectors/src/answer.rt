// What a call answers, and its line.
use pages::Refusal;
use std::fmt;

// What a call gives that refuses nothing.
#[derive(Clone, Copy)]
pub enum Given {
    // a lawful tree
    Lawful,
    // so many bytes
    Length(usize),
    // a table that now has so many rows
    Rows(usize),
}

impl fmt::Display for Given {
    fn fmt<W: fmt::Write>(&self, f: &mut fmt::Formatter<W>) -> fmt::Result {
        match self {
            Given::Lawful => write!(f, "lawful"),
            Given::Length(bytes) => write!(f, "{bytes} bytes"),
            Given::Rows(rows) => write!(f, "given, {rows} rows"),
        }
    }
}

// Prints an answer beside what it is the answer to.
pub fn tell(rt: &impl Print, what: &str, answer: Result<Given, Refusal>) -> anyhow::Result<()> {
    match answer {
        Ok(given) => println!(rt; "{what}: {given}")?,
        Err(refusal) => println!(rt; "{what}: {refusal}")?,
    }
    Ok(())
}
