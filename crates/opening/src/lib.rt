// Opening a pool: judge the whole of it, mend the stale headers, mark what is reached.
#![tactic(auto)]

mod mending;

pub use mending::{Opened, open, plan_open};
