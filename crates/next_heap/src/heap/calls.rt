// Making a heap.
ghost use Rattle.std.specs.Prelude.{◌≡◌};
ghost use Rattle.model.specs.Cells.{all_free};
ghost use Rattle.next_heap.specs.Next.{next_cells, starts, at_zero};

use super::NextHeap;
use table::Table;

impl NextHeap {
    // Every cell is free, and every node begins at cell 0.
    pub fn new() -> NextHeap
        ensures cells { next_cells result ≡ all_free }
        ensures starts { starts result ≡ at_zero }
    {
        NextHeap {
            table: Table::new(),
            start: [0; 16],
        }
    }
}
