// What a peel goes by, beside the book.
use peel::{Line, Tolerance};

#[derive(Clone, Copy)]
pub(crate) struct Setting {
    pub tolerance: Tolerance,
    pub line: Line,
    pub height: u16,
}
