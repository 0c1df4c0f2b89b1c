ghost use Rattle.std.specs.Prelude.{◌≡◌, ◌<◌, length, MatchBool, MatchOption};
ghost use Rattle.numbers.specs.Computed.{lcm_of_all};
ghost use Rattle.nodes.specs.Answers.{AllRight, Askable, NodeLong, PeriodAnswer, PeriodLeast, Right};
ghost use Rattle.nodes.specs.Finding.{AllPeriods, ChildrenKnown, KnownFrom, PeriodsAnswer, Within, WrongAnswer, period_in};

use plans::period::{LONGEST, joined};
use plans::refusal::Refusal;
use records::kinds::Node;
use std::alloc::Global;

// The most nodes that a tree may have.
const MOST_NODES: usize = 2048;

// The most channels that a timetable may have.
const MOST_CHANNELS: u8 = 8;

// Whether a tree may have so many nodes and channels.
fn askable(nodes: usize, channels: u8) -> bool
    ensures decides { MatchBool result (Askable nodes channels) (Askable nodes channels → ⊥) }
{
    (1..=MOST_NODES).contains(&nodes)
        && (1..=MOST_CHANNELS).contains(&channels)
        && usize::from(channels) <= nodes
}

// Whether a node, by its number and the number of all nodes, is a leaf or has children after it.
fn is_right(node: Node, number: usize, count: usize) -> bool
    ensures decides { MatchBool result (Right count number node) (Right count number node → ⊥) }
{
    match node {
        Node::Leaf(_) => true,
        Node::Inner(inner) => {
            let first = usize::from(inner.first_child);
            let degree = usize::from(inner.degree);
            0 < degree && number < first && first + degree <= count
        }
    }
}

// The lowest node that is wrong.
fn first_wrong(nodes: &[Node]) -> Option<usize>
    ensures lowest_wrong { WrongAnswer nodes.now result }
{
    let count = nodes.len();
    nodes
        .iter()
        .enumerate()
        .position(|(number, node)| !is_right(*node, number, count))
}

// Kept so: rows have their periods each in a row, and no heap to list them in; one function for rows and nodes would take each number from a closure and promise by what that answers, which is longer than these lines.
// The period that some cycles have together, of which none is 0; `None` as soon as it is too long.
fn all_joined(cycles: &[u32]) -> Option<u32>
    requires positive { AllPeriods cycles.now }
    ensures least_common_multiple { Within (lcm_of_all cycles.now) result }
{
    let mut period = 1;
    for cycle in cycles {
        period = joined(Some(period), *cycle)?;
    }
    Some(period)
}

// A period, unless it is too long.
fn unless_long(period: u32) -> Option<u32>
    requires some { 0 < period }
    ensures within_longest { Within period result }
{
    (period <= LONGEST).then_some(period)
}

// The period of a node, from a list in which those of its children stand; `None` where it is too long.
fn period_of(node: Node, periods: &[u32]) -> Option<u32>
    requires children_known { ChildrenKnown node periods.now }
    ensures own_period { Within (period_in node periods.now) result }
{
    match node {
        Node::Leaf(_) => Some(1),
        Node::Inner(inner) => {
            let first = usize::from(inner.first_child);
            let end = first + usize::from(inner.degree);
            let together = all_joined(&periods[first..end])?;
            unless_long(u32::from(inner.degree) * together)
        }
    }
}

// Sets the period of each node, from the last node to the first; `None` as soon as one is too long.
fn fill_periods(periods: &mut [u32], nodes: &[Node]) -> Option<()>
    requires one_each { length periods.old ≡ length nodes.now }
    requires all_right { AllRight nodes.now }
    ensures filled { MatchOption result (NodeLong nodes.now) (λ _. KnownFrom nodes.now periods.new 0) }
{
    for (number, node) in nodes.iter().enumerate().rev() {
        periods[number] = period_of(*node, periods)?;
    }
    Some(())
}

// The period of each node of a tree in which all nodes are right.
fn node_periods(heap: Global, nodes: &[Node]) -> Result<Vec<u32>, Refusal>
    requires all_right { AllRight nodes.now }
    ensures each_or_refusal { PeriodsAnswer nodes.now result }
{
    let mut periods = Vec::from_elem(heap, 1, nodes.len())?;
    fill_periods(periods.as_mut_slice(), nodes).ok_or(Refusal::PeriodTooLong)?;
    Ok(periods)
}

// The period of the tree whose roots are the first nodes, one for each channel: the slots after which all of them have
// the same turns to hand out again.
pub fn tree_period(heap: Global, nodes: &[Node], channels: u8) -> Result<u32, Refusal>
    ensures period_or_refusal { PeriodAnswer nodes.now channels result }
    ensures least_common_multiple { PeriodLeast nodes.now channels result }
{
    if !askable(nodes.len(), channels) {
        return Err(Refusal::OutOfRange);
    }
    if let Some(number) = first_wrong(nodes) {
        return Err(Refusal::WrongNode(number));
    }
    let periods = node_periods(heap, nodes)?;
    let roots = usize::from(channels);
    all_joined(&periods.as_slice()[..roots]).ok_or(Refusal::PeriodTooLong)
}
