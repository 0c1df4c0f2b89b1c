// The receiver of a film loop: it hears slots, starts after its delay, and then shows a page a slot out of its store.
#![tactic(auto)]

pub mod numbers;
pub mod refusal;
mod slot;
pub mod states;
pub mod stock;
