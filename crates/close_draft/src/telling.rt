// What the program writes.
use crate::books::Drafts;
use model::Reference;
use std::io;

pub fn drafts(rt: &HostRuntime, drafts: Drafts) -> io::Result<()> {
    let Drafts {
        split,
        first,
        second,
        other,
        line,
    } = drafts;
    println!(rt; "Two drafts are entered:")?;
    println!(rt;
        "  {split} is a split: it names {first}, its line for the first partner, and {second}, for the second"
    )?;
    println!(rt; "  {other} is another draft: it names {line}, its line")
}

// Words, and then cells in order.
pub fn cells(rt: &HostRuntime, words: &str, cells: &[Reference]) -> io::Result<()> {
    print!(rt; "{words}")?;
    if cells.is_empty() {
        print!(rt; " nothing")?;
    }
    for cell in cells {
        print!(rt; " {cell}")?;
    }
    println!(rt; "")
}

// A cell that marking read.
pub fn read(rt: &HostRuntime, cell: Reference, names: &[Reference]) -> io::Result<()> {
    print!(rt; "  {cell} is grey; it is read and turns black; it names")?;
    cells(rt, "", names)
}
