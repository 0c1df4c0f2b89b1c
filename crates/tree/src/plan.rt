ghost use Rattle.std.specs.Prelude.{◌≡◌, ◌<◌};
ghost use Rattle.tree.specs.Plans.{PlanAnswer, PlanComesRound};
ghost use Rattle.nodes.specs.Turns.{HandsTurnsOn, carried, handed, tree, tree_lawful};

use nodes::period::tree_period;
use plans::refusal::Refusal;
use records::kinds::{Inner, Node};
use std::alloc::Global;
use std::convert::AsSlice;
use timetable::interface::Timetable;
use timetable::turns::turn_in;

// Kept so: a plan file names nodes by their numbers, so a tree is the file's list of nodes and no tree of boxes.
// A timetable by nodes, lent or its own: each of the channels begins at a node of its own, the first at node 0.
#[derive(Clone, Copy, Drop)]
pub struct Tree<L> {
    pub nodes: L,
    pub channels: u8,
    pub period: u32,
}

// What a node carries in a turn: a leaf its page, and an inner node what the child carries to which it hands the turn.
#[cycle(child_step_node_step)]
fn node_step(nodes: &[Node], node: usize, turn: u32) -> u16
    ensures carries { result ≡ carried nodes.now node turn }
{
    if node >= nodes.len() {
        return 0;
    }
    match nodes[node] {
        Node::Leaf(leaf) => leaf.page,
        Node::Inner(inner) => {
            if inner.degree == 0 || usize::from(inner.first_child) <= node {
                return 0;
            }
            child_step(nodes, inner, turn)
        }
    }
}

// What the child carries to which an inner node hands a turn: the child answers or hands on.
#[cycle(child_step_node_step)]
fn child_step(nodes: &[Node], parent: Inner, turn: u32) -> u16
    requires some_children { 0 < parent.degree }
    ensures hands_on { result ≡ handed (carried nodes.now) parent turn }
{
    let degree = u32::from(parent.degree);
    let child = usize::from(parent.first_child) + (turn % degree) as usize;
    node_step(nodes, child, turn / degree)
}

impl<'a> Tree<&'a [Node]> {
    // The tree whose roots are the first nodes, one for each channel, with its period.
    pub fn plan(heap: Global, nodes: &'a [Node], channels: u8) -> Result<Tree<&'a [Node]>, Refusal>
        ensures tree_or_refusal { PlanAnswer nodes.now channels result }
        ensures hands_turns_on { HandsTurnsOn nodes.now (carried nodes.now) }
        ensures comes_round { PlanComesRound result }
    {
        let period = tree_period(heap, nodes, channels)?;
        Ok(Tree {
            nodes,
            channels,
            period,
        })
    }
}

impl<L: AsSlice<Node>> Timetable for Tree<L> {
    ghost meaning = { λ x. tree (L.AsSlice.items x.nodes) x.channels x.period };

    ghost lawful = { λ x. tree_lawful (L.AsSlice.items x.nodes) x.channels x.period };

    fn channels(&self) -> u8 {
        self.channels
    }

    fn period(&self) -> u32 {
        self.period
    }

    fn page_at(&self, channel: u8, slot: u32) -> u16 {
        let Some(turn) = turn_in(self.channels, self.period, channel, slot) else {
            return 0;
        };
        node_step(self.nodes.as_slice(), usize::from(channel) - 1, turn)
    }
}
