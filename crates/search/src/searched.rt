// What a search leaves.
use peel::Line;

#[derive(Clone, Copy)]
pub struct Searched {
    // the cards of the kept set
    pub kept: [bool; 1024],
    // the line that the kept set makes
    pub line: Line,
    // the levels of the last peel
    pub levels: [u16; 1024],
    // the height at which the peels went
    pub height: u16,
    // how many peels there were
    pub peels: u32,
}
