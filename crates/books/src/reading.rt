// A book that answers questions. No question changes it.
ghost use Rattle.std.specs.Prelude.{◌≡◌, ◌≤◌};
ghost use Rattle.books.specs.Graphs.{Graph, link_count};
ghost use Rattle.books.specs.Books.{IsBook, next_partner, LowestPartner};

pub trait ReadingBook {
    // what the book means: its cards and links
    ghost graph: { Self → Graph };

    // The number of cards, from 1 to 1,024.
    fn cards(&self) -> u16
        ensures is { result ≡ (graph self.now).cards }
        ensures least { 1 ≤ result }
        ensures most { result ≤ 1024 };

    // The number of links.
    fn links(&self) -> u32
        ensures { result ≡ link_count (graph self.now) };

    // Whether u and v are linked. Any numbers may be given.
    fn linked(&self, u: u16, v: u16) -> bool
        ensures { result ≡ (graph self.now).linked u v };

    // The lowest partner of u that is not below w, or none. Any numbers may be given.
    // As written here it asks `linked` of each card from w on, up to the one it answers.
    fn next_partner(&self, u: u16, w: u16) -> Option<u16>
        ensures is { result ≡ next_partner (graph self.now) u w }
        ensures lowest { LowestPartner (graph self.now) u w result }
    {
        (w..self.cards()).find(|x| self.linked(u, *x))
    }

    // what holds of every book
    ghost sound: { (book : Self) → IsBook (graph book) };
}
