// A reading book that also takes links in and gives them up, one at a time.
ghost use Rattle.std.specs.Prelude.{◌≡◌, ℕ};
ghost use Rattle.std.specs.Result.{result_err};
ghost use Rattle.books.specs.Graphs.{with_link, without_link};
ghost use Rattle.books.specs.Refusals.{put_refusal, take_refusal, unless_refused};

use super::reading::ReadingBook;
use super::refusal::Refusal;

// u and v are any two numbers, of which nothing holds before a call has tested them: a struct of the two would say no
// more than their names do.
pub trait WritingBook: ReadingBook {
    // the places: the most links that the book can hold
    ghost room: { Self → ℕ };

    // The places.
    fn places(&self) -> u32
        ensures { result ≡ room self.now };

    // Puts the link of u and v in. Nothing else changes, and where it refuses nothing at all.
    fn put(&mut self, u: u16, v: u16) -> Result<(), Refusal>
        ensures answer { result_err result ≡ put_refusal (Self.graph self.old) (room self.old) u v }
        ensures links { Self.graph self.new ≡ unless_refused (result_err result) (Self.graph self.old) (with_link (Self.graph self.old) u v) }
        ensures places { room self.new ≡ room self.old };

    // Takes the link of u and v out. Nothing else changes, and where it refuses nothing at all.
    fn take(&mut self, u: u16, v: u16) -> Result<(), Refusal>
        ensures answer { result_err result ≡ take_refusal (Self.graph self.old) u v }
        ensures links { Self.graph self.new ≡ unless_refused (result_err result) (Self.graph self.old) (without_link (Self.graph self.old) u v) }
        ensures places { room self.new ≡ room self.old };
}
