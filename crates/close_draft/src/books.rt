// The cells of the host, as the story makes, links and lists them.
ghost use Rattle.std.specs.Prelude.{◌<◌};
ghost use Rattle.model.specs.References.{Names};

use model::{Colour, Heap, Reference, Refusal};
use short_list::ShortList;

// The one host of this program.
pub const HOST: u8 = 0;

// A split with its lines, and another draft with its line.
#[derive(Clone, Copy)]
pub struct Drafts {
    pub split: Reference,
    pub first: Reference,
    pub second: Reference,
    pub other: Reference,
    pub line: Reference,
}

// The cells in use, lowest first: those that are white, and the others. Short lists, so that the story can't stop for want of memory.
#[derive(Clone, Copy)]
pub struct InUse {
    pub white: ShortList<Reference, 64>,
    pub marked: ShortList<Reference, 64>,
}

// Makes a white cell.
pub fn make<H: Heap>(heap: &mut H) -> Result<Reference, Refusal> {
    let cell = heap.make(HOST, Colour::White)?;
    Reference::new(HOST, cell)
}

fn link<H: Heap>(heap: &mut H, from: Reference, slot: u8, to: Reference) -> Result<(), Refusal> {
    heap.set_slot(HOST, from.cell(), slot, Some(to))
}

pub fn enter<H: Heap>(heap: &mut H) -> Result<Drafts, Refusal> {
    let split = make(heap)?;
    let first = make(heap)?;
    let second = make(heap)?;
    let other = make(heap)?;
    let line = make(heap)?;
    link(heap, split, 0, first)?;
    link(heap, split, 1, second)?;
    link(heap, other, 0, line)?;
    Ok(Drafts {
        split,
        first,
        second,
        other,
        line,
    })
}

// What the slots of a cell name, lowest first.
pub fn named<H: Heap>(heap: &H, cell: Reference) -> Result<ShortList<Reference, 4>, Refusal> {
    let mut names = ShortList::filled(cell);
    for slot in 0..4 {
        if let Some(name) = heap.slot(HOST, cell.cell(), slot)? {
            names.push(name);
        }
    }
    Ok(names)
}

pub fn in_use<H: Heap>(heap: &H) -> InUse {
    let none = ShortList::filled(of_host(0));
    let mut used = InUse {
        white: none,
        marked: none,
    };
    for number in 0..64 {
        match heap.colour(HOST, number) {
            Ok(Colour::White) => {
                used.white.push(of_host(number));
            }
            Ok(Colour::Grey | Colour::Black) => {
                used.marked.push(of_host(number));
            }
            // a free cell has no colour
            Err(_) => {}
        }
    }
    used
}

// A cell of the host.
fn of_host(number: u8) -> Reference
    requires { number < 64 }
    ensures { Names 0 number result }
{
    Reference::new(HOST, number).unwrap()
}
