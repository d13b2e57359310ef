// What is wrong with a line that cannot be read.
ghost use Rattle.std.specs.Prelude.{◌≡◌, Some};
ghost use Rattle.link_text.specs.Words.{fault_words};

use std::error::Error;
use std::fmt;

#[derive(Clone, Copy, PartialEq, Eq, Debug)]
pub enum Fault {
    // the line ends, or a second space stands, where a number should begin
    Missing,
    // something that is no digit stands where a number should
    NotDigits,
    // a number of 65,536 or more
    TooLarge,
    // a space, and perhaps more, after the last number
    MoreFollows,
}

impl Fault {
    // What is wrong, in words.
    pub fn words(self) -> &'static str
        ensures { result.now ≡ fault_words self }
    {
        match self {
            Fault::Missing => "a number is missing",
            Fault::NotDigits => "a number is not made of digits alone",
            Fault::TooLarge => "a number is above 65535",
            Fault::MoreFollows => "something follows the last number",
        }
    }
}

// Shown in words.
impl fmt::Display for Fault {
    ghost output = { λ fault. Some (fault_words fault) };

    fn fmt<W: fmt::Write>(&self, f: &mut fmt::Formatter<W>) -> fmt::Result {
        f.write_str(self.words())
    }
}

impl Error for Fault {}
