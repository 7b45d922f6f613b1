//! What the programs that answer rows have in common: the loop over the rows of a text, the words of a row, the report,
//! and random numbers.
//!
//! Each line of a text is a row, unless it is empty or begins with `#`. A row is `CALL => ANSWER` or `CALL => ANSWER ;
//! WHAT IT SHOWS`. A program says what its calls do, by an `impl` of `Table`, and hands it to `answer_rows`.
#![tactic(auto)]

mod random;
mod report;
mod rows;
mod table;
mod words;

pub use random::Random;
pub use table::{Table, answer_rows};
pub use words::{number, small, value, word};
