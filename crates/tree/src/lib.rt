// Tree plans: a channel is a tree of nodes, each of which hands its turns round to its children.
#![tactic(auto)]

pub mod plan;
