// A heap that makes the cell freed last, and at first the lowest; its grey cell is the one that became grey last.
ghost use Rattle.model.specs.Cells.{is_free, is_grey};
ghost use Rattle.table.specs.Tables.{cells_of};
ghost use Rattle.last_heap.specs.Stacks.{stack, Stacked};

use stacks::Stacks;
use table::Table;

#[derive(Clone, Copy)]
pub struct LastHeap {
    table: Table,
    // for each node its free cells, and its grey ones: one type twice, so that each call is written and proved once
    free: Stacks,
    grey: Stacks,
    ghost unused: { Stacked is_free (cells_of table) (stack free) },
    ghost reached: { Stacked is_grey (cells_of table) (stack grey) },
}

mod calls;
mod cells;
mod node;
mod stacks;
