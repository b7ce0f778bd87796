// What came of a detector's turn. Not an Option of (): its Some and None would not say what was done.
#[derive(Clone, Copy)]
pub enum Turn {
    Done,
    Nothing,
}
