// Lines of a text. Nothing here knows what a line means.
#![tactic(auto)]

mod lines;

pub use lines::{first_difference, line_end, lines_end, starts_with};
