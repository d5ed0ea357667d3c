//! The words that `bossd` is started with, as the job that they ask for. `specs/` has the table of words.
#![tactic(auto)]

mod job;
mod number;
mod read;
mod word;

pub use job::Job;
pub use read::{WordsRefusal, read_words};
pub use word::Word;
