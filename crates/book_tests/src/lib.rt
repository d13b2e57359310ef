// The kinds of book on small cases, whose answers were worked out by hand.
#![tactic(auto)]

#[cfg(test)]
mod agreement;
#[cfg(test)]
mod bit_books;
#[cfg(test)]
mod chain_books;
#[cfg(test)]
mod closed_books;
#[cfg(test)]
mod refusals;
#[cfg(test)]
mod steps;
