// The answer to a line of recorded calls, as bytes.
#![tactic(auto)]

pub mod answers;
pub mod faults;
pub mod messages;
pub mod promises;
pub mod replies;
pub mod shards;
