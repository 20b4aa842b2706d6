// The calls for C (section IC of the specification). Each returns an `i64`: 0 or more is the answer, -k is refusal
// k (IC2). A slice is two arguments in C, the pointer and the length (IC6). Further results go to the front of an
// array that the caller provides, which check 14 concerns as every output (IC3). No exported function has a
// `requires`: what it returns and writes is a definition for every input, refused ones included. Kind, rank and word
// are parameters of their own, and answers are numbers, since the C interface has them so.
#![tactic(auto)]

pub mod library;
mod numbers;
pub mod presets;
pub mod rewriting;
pub mod shortest;
pub mod splits;
pub mod tables;
pub mod tracing;
pub mod windows;
pub mod words;
