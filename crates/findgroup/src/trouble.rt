// What ends the program without a result.
ghost use Rattle.std.specs.Prelude.{◌≡◌};
ghost use Rattle.findgroup.specs.declared.trouble.Trouble.TheVariants.{Output, Refused};
ghost use Rattle.findgroup.specs.Steps.{trouble_text};

use books::Refusal;
use link_text::Fault;
use std::error::Error;
use std::{fmt, io};

#[derive(Clone, Copy, Debug)]
pub enum Trouble {
    // the first line does not read as a setup
    BadSetup(Fault),
    // another line does not read as a link
    BadLink { line: u64, fault: Fault },
    // there is no such book or no such tolerance as the first line asks for
    Refused(Refusal),
    // a line could not be read
    Input { line: u64, error: io::Error },
    // something could not be written
    Output(io::Error),
}

// The two conversions are written out, since a clause says which trouble each gives: a derived one would state nothing.
impl From<Refusal> for Trouble {
    ghost from_gives = { λ refusal trouble. trouble ≡ Refused refusal };

    fn from(refusal: Refusal) -> Trouble {
        Trouble::Refused(refusal)
    }
}

impl From<io::Error> for Trouble {
    ghost from_gives = { λ error trouble. trouble ≡ Output error };

    fn from(error: io::Error) -> Trouble {
        Trouble::Output(error)
    }
}

impl fmt::Display for Trouble {
    ghost output = { trouble_text };

    fn fmt<W: fmt::Write>(&self, f: &mut fmt::Formatter<W>) -> fmt::Result {
        match self {
            Trouble::BadSetup(fault) => write!(
                f,
                "line 1: expected `n p q`, the number of cards and the tolerance, with one space between two numbers: {fault}"
            ),
            Trouble::BadLink { line, fault } => write!(
                f,
                "line {line}: expected `u v`, two cards, with one space between the numbers: {fault}"
            ),
            Trouble::Refused(refusal) => write!(
                f,
                "line 1: refused {}: {refusal}",
                refusal.number()
            ),
            Trouble::Input { line, error } => write!(
                f,
                "line {line}: cannot read the input: {error}"
            ),
            Trouble::Output(error) => write!(f, "cannot write the output: {error}"),
        }
    }
}

impl Error for Trouble {}
