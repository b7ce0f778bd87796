// Messages are put and taken through each kind of channel, step by step.
#![tactic(auto)]

mod story;

use channels::{Bag, Fifo};

fn main(rt: HostRuntime) -> anyhow::Result<()> {
    println!(rt; "A channel gives each node the message that waits longest for it.\n")?;
    story::deliver(&rt, &mut Fifo::new(), 0)?;
    println!(rt;
        "\nA channel gives whichever message for the node the network picks: here always number 1 of those that wait, from 0.\n"
    )?;
    story::deliver(&rt, &mut Bag::new(), 1)
}
