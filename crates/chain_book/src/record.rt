// One piece of a chain book's memory: a head, a link as one of its ends has it, or a free record.
#[derive(Clone, Copy, PartialEq, Eq, Debug)]
pub struct Record {
    // in a chain, a partner of the card on whose head the chain hangs; in a head or a free record it means nothing
    pub partner: u16,
    // the number of the record that comes next in the chain or among the free ones, or 0 at the end
    pub next: u16,
}
