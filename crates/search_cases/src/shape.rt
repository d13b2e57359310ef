// The shapes of graphs that are searched. A shape is data, with a name that is printed and a place in a table, so which
// pairs it links is a `match` and not a closure.
ghost use Rattle.std.specs.Prelude.{◌<◌};

use std::fmt;

#[derive(Clone, Copy)]
pub enum Shape {
    // no link
    Empty,
    // every link
    Full,
    // about one link for each card
    Sparse,
    // four links of five
    Dense,
    // every fourth card is linked to every other fourth; where four divides n, just not below the line at 1/1
    Lone,
    // every fifth card is linked to every other fifth, among sparse links
    Planted,
    // groups of falling size, most of whose cards are linked to each other
    Blocks,
    // a clique in a denser part in a sparse whole
    Nested,
    // a clique with a long tail, which a peel takes off bit by bit
    Tail,
    // each card is linked to the next ones, and the higher it is the more of them
    Wedge,
}

impl Shape {
    // Whether the pair u < v of n cards is linked, at this roll for it.
    pub(crate) fn links(self, n: u16, u: u16, v: u16, roll: u32) -> bool
        requires { 0 < n }
    {
        let n = u32::from(n);
        let u = u32::from(u);
        let v = u32::from(v);
        match self {
            Shape::Empty => false,
            Shape::Full => true,
            Shape::Sparse => roll % n < 2,
            Shape::Dense => roll % 10 < 8,
            Shape::Lone => u % 4 == 0 && v % 4 == 0,
            Shape::Planted => u % 5 == 0 && v % 5 == 0 || roll % n < 2,
            Shape::Blocks => u * u / n == v * v / n && roll % 4 > 0 || roll % n < 1,
            Shape::Nested => u % 12 == 0 && v % 12 == 0
                || u % 3 == 0 && v % 3 == 0 && roll % 5 == 0
                || roll % n < 1,
            Shape::Tail => v < 6 || v <= u + 2 && 5 * v < 2 * n,
            Shape::Wedge => v <= u + u * u / (8 * n),
        }
    }
}

impl fmt::Display for Shape {
    fn fmt<W: fmt::Write>(&self, f: &mut fmt::Formatter<W>) -> fmt::Result {
        f.write_str(match self {
            Shape::Empty => "empty",
            Shape::Full => "full",
            Shape::Sparse => "sparse",
            Shape::Dense => "dense",
            Shape::Lone => "lone",
            Shape::Planted => "planted",
            Shape::Blocks => "blocks",
            Shape::Nested => "nested",
            Shape::Tail => "tail",
            Shape::Wedge => "wedge",
        })
    }
}
