// Checking: a transcript of a source, judged without the decoder.
#![tactic(auto)]

mod blocks;
mod checking;
mod classes;
mod lent;
mod meeting;
mod numbers;
mod pieces;
mod references;
mod rows;
mod spans;
mod stops;
mod verdicts;

pub use checking::{Checked, check, check_bytes};
