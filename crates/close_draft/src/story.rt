// A split with two lines stays; another draft with a line of its own is closed.
use crate::books::{HOST, InUse, enter, in_use, make, named};
use crate::telling;
use marking::mark;
use model::{Heap, Reference, Tally};

pub fn close_draft<H: Heap>(rt: &HostRuntime, heap: &mut H) -> anyhow::Result<()> {
    let drafts = enter(heap)?;
    telling::drafts(rt, drafts)?;
    println!(rt; "The other draft is closed. Only the split is still held.")?;
    mark_from(rt, heap, drafts.split)?;
    reclaim(rt, heap)?;
    let new = make(heap)?;
    println!(rt; "A new draft is entered: it is {new}.")?;
    Ok(())
}

fn mark_from<H: Heap>(rt: &HostRuntime, heap: &mut H, root: Reference) -> anyhow::Result<()> {
    println!(rt; "Marking starts at {root} and goes through all that it leads to:")?;
    for number in mark(heap, HOST, &[root])?.items() {
        let cell = Reference::new(HOST, *number)?;
        telling::read(rt, cell, named(heap, cell)?.items())?;
    }
    Ok(())
}

fn reclaim<H: Heap>(rt: &HostRuntime, heap: &mut H) -> anyhow::Result<()> {
    let InUse { white, marked } = in_use(heap);
    let Tally { freed, kept } = heap.reclaim(HOST)?;
    println!(rt; "What is still white is reclaimed: {freed} freed, {kept} kept.")?;
    telling::cells(rt, "  freed:", white.items())?;
    telling::cells(rt, "  kept:", marked.items())?;
    Ok(())
}
