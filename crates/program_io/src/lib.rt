// Input, output and arguments of the programs. Answers go to standard output, messages to standard error, and the status
// to descriptor 3 where `--status` asks for it.
#![tactic(auto)]

pub mod arguments;
mod errors;
mod finish;
mod help;
mod input;
pub mod line;
mod message;
mod output;
pub mod start;
pub mod status;
pub mod stream;
mod write;
