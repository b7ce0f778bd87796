// The cells of sixteen nodes: a row of cells for each. Node and cell are two numbers here too, since a Reference would ask of a caller what a call refuses.
mod reading;
mod writing;

use crate::row::Row;

#[derive(Clone, Copy)]
pub struct Table {
    rows: [Row; 16],
}
