// Tolerances, heights, lines, level tables, peels and searches: what they mean, and what holds of them.
#![tactic(auto)]

mod cases;
mod line;
mod tolerance;

pub use cases::worked_cases;
pub use line::Line;
pub use tolerance::Tolerance;
