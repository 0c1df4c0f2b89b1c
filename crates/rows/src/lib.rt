// Plans by rows: a page, a channel, and the slots in which the channel carries the page.
#![tactic(auto)]

pub mod period;
pub mod rows;
