// How far marking has come with a cell in use: not reached, reached, or reached with all its slots read.
#[derive(Clone, Copy)]
pub enum Colour {
    White,
    Grey,
    Black,
}
