// What the program prints.
use anyhow::anyhow;
use names::Name;
use options::ManglePropertyCache;
use pages::{Nodes, Refusal};
use std::io::Write;
use std::{fmt, io};
use table::Entry;
use writer::{write, written_len};

// A name in its quotes, as a listing's text has it. The writer has the rule too, for lent memory: there it is said
// exactly what does not fit, which formatting does not say.
#[derive(Clone, Copy)]
struct Quoted<'a>(&'a Name);

impl fmt::Display for Quoted<'_> {
    fn fmt<W: fmt::Write>(&self, f: &mut fmt::Formatter<W>) -> fmt::Result {
        write!(f, "\"")?;
        for b in self.0.as_bytes() {
            match char::from(*b) {
                c @ ('"' | '\\') => write!(f, "\\{c}")?,
                c @ ' '..='~' => write!(f, "{c}")?,
                _ => write!(f, "\\{b:02x}")?,
            }
        }
        write!(f, "\"")
    }
}

// An entry of the cache, as a line.
#[derive(Clone, Copy)]
struct Line<'a>(&'a Entry<Name, Option<Name>>);

impl fmt::Display for Line<'_> {
    fn fmt<W: fmt::Write>(&self, f: &mut fmt::Formatter<W>) -> fmt::Result {
        let name = Quoted(&self.0.key);
        match &self.0.value {
            Some(target) => write!(f, "(pin {name} {})", Quoted(target)),
            None => write!(f, "(keep {name})"),
        }
    }
}

// Prints why something is refused; the error ends the program with status 1.
pub fn refused(rt: &impl Print, refusal: Refusal) -> anyhow::Error {
    let told = println!(rt; "(refused {refusal})");
    told.map_or_else(anyhow::Error::from, |()| anyhow!("refused"))
}

// Prints the cache in ascending order, an entry to a line.
pub fn print_cache(rt: &impl Print, cache: &ManglePropertyCache) -> anyhow::Result<()> {
    for entry in cache.table.rows() {
        println!(rt; "{}", Line(entry))?;
    }
    Ok(())
}

// Prints a page that was read.
pub fn print_page(rt: &(impl Print + AllocGlobal), nodes: Nodes) -> anyhow::Result<()> {
    let len = written_len(nodes).map_err(|refusal| refused(rt, refusal))?;
    let mut out = vec![in rt.alloc(); 0u8; len]?;
    write(nodes, &mut out).map_err(|refusal| refused(rt, refusal))?;
    io::writer(rt).write_all(&out)?;
    Ok(())
}
