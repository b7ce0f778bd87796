// Messages for all nodes in order of put, up to a limit; the one that waits longest is first.
ghost use Rattle.std.specs.Prelude.{◌≤◌, length};
ghost use Rattle.short_list.specs.Lists.{listed};

use model::Message;
use short_list::ShortList;

#[derive(Clone, Copy)]
pub struct Queue {
    messages: ShortList<Message, 256>,
    // a value and no const parameter, since a caller may give it at run time
    limit: u16,
    ghost short: { length (listed messages) ≤ limit },
    ghost some: { 1 ≤ limit },
    ghost few: { limit ≤ 256 },
}

mod changes;
mod reads;
