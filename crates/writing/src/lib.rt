// Writing a pool: format, and put and delete whole.
#![tactic(auto)]

mod calls;
mod making;

pub use calls::{delete, format, put};
