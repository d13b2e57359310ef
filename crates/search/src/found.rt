// What the search by itself answers. Its cards and links are no `Line`, since nothing is held against
// them.
#[derive(Clone, Copy, PartialEq, Eq, Debug)]
pub struct Group {
    pub cards: u16,
    pub links: u32,
    pub peels: u32,
}
