// Tolerances and the search on small cases, whose answers were worked out by hand.
#![tactic(auto)]

#[cfg(test)]
mod searches;
#[cfg(test)]
mod tolerances;
