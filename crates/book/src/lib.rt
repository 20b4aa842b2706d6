// The preset book in its two editions (section B of the specification): checks, reading by number, appending,
// converting. No public function has a `requires`. Kinds come as numbers and are checked here, as K2 and C5 promise.
#![tactic(auto)]

mod checked;
mod converting;
mod numbers;
pub mod reader;
mod reading;
mod records;
mod runs;
mod writing;

pub use book_format::{Edition, Preset, Run};
pub use converting::convert;
pub use reading::{check_book, check_preset, letters};
pub use runs::{read_presets, read_run};
pub use writing::append;
