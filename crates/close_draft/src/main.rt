// One host closes a draft, step by step, on each kind of heap.
#![tactic(auto)]

mod books;
mod story;
mod telling;

use last_heap::LastHeap;
use next_heap::NextHeap;

fn main(rt: HostRuntime) -> anyhow::Result<()> {
    let rt = &rt;
    println!(rt; "One host closes a draft. Its heap makes the next free cell, going round.\n")?;
    story::close_draft(rt, &mut NextHeap::new())?;
    println!(rt; "\nThe same on a heap that makes the cell that was freed last.\n")?;
    story::close_draft(rt, &mut LastHeap::new())
}
