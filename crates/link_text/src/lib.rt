// Reading cards and links from lines of text.
//
// A number is one or more decimal digits with a value below 65,536; zeros in front are allowed. Numbers
// stand on a line with exactly one space between two of them and nothing else: no other blank, no sign,
// no carriage return. The end of the line itself is not part of what is read here.
//
// Every call reads each byte of the line at most three times, and asks for no memory.
#![tactic(auto)]

mod fault;
mod line;
mod number;

pub use fault::Fault;
pub use line::{Setup, read_link, read_setup};
