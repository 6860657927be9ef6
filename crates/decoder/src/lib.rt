// Decoding: a source to text and errors.
#![tactic(auto)]

mod classes;
mod feeding;
mod laying;
mod names;
mod numbers;
mod opening;
mod pieces;
mod skimming;
mod stops;
mod stream;
mod turns;
mod whole;
mod writers;

pub use stream::{Fed, Held, State, Stream};
pub use whole::{Decoded, decode_bytes, decode_whole};
