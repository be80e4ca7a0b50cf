// A page.
use pages::Row;
use table::Entry;

// What a page is mangled by.
#[derive(Clone, Copy, Debug, Default, PartialEq, Eq)]
pub struct PageOptions {
    // Quoted property names are mangled too.
    pub mangle_quoted: bool,
}

// A page is read out of the caller's rows, text and places, without a copy. The places are the rows of a table: starts
// of literals that are annotated as keys, in ascending order.
#[derive(Clone, Copy, Debug)]
pub struct Page<'a> {
    pub rows: &'a [Row],
    pub text: &'a [u8],
    pub places: &'a [Entry<u32, ()>],
    pub options: PageOptions,
}
