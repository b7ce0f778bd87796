// A reference names a cell: a node below 16, and one of its cells, below 64.
ghost use Rattle.std.specs.Prelude.{◌<◌};

#[derive(Clone, Copy, PartialEq)]
pub struct Reference {
    node: u8,
    cell: u8,
    ghost near: { node < 16 },
    ghost low: { cell < 64 },
}

mod makes;
