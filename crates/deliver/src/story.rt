// A host sends a reference and then opens a round; the reference may come second.
use model::{Channel, Kind, Message, Reference, Refusal};

// Puts the messages of the story, and takes them at both receivers.
pub fn deliver<C: Channel>(rt: &HostRuntime, channel: &mut C, pick: u8) -> anyhow::Result<()> {
    println!(rt; "Host 0 sends a reference to host 1, and then opens a round:")?;
    for message in [reference_sent()?, opening(1)?, opening(2)?] {
        channel.put(message)?;
        println!(rt; "  to host {}: {}", message.to(), message.kind())?;
    }
    for node in 1..3 {
        take_all(rt, channel, node, pick)?;
    }
    Ok(())
}

fn reference_sent() -> Result<Message, Refusal> {
    let kind = Kind::Ref {
        reference: Reference::new(0, 5)?,
        register: 2,
        stamp: 0,
    };
    Message::new(0, 1, kind)
}

fn opening(to: u8) -> Result<Message, Refusal> {
    Message::new(0, to, Kind::Open)
}

// Takes what waits for a node, until nothing does.
fn take_all<C: Channel>(
    rt: &HostRuntime,
    channel: &mut C,
    node: u8,
    pick: u8,
) -> anyhow::Result<()> {
    while let Some(message) = channel.take(node, pick)? {
        println!(rt;
            "Host {node} takes from host {}: {}",
            message.from(),
            message.kind()
        )?;
    }
    println!(rt; "Nothing more waits for host {node}.")?;
    Ok(())
}
