// A plan in memory.
use records::kinds::*;

// How the pages of a film circle: by pagoda channels, by rows, or by a tree of nodes numbered from 0.
#[derive(Debug, Drop)]
pub enum Parts {
    Pagoda(Vec<Channel>),
    Rows(Vec<Row>),
    Tree(Vec<Node>),
}

// A film, how its pages circle, and the entries that are closed.
#[derive(Debug, Drop)]
pub struct Plan {
    pub film: Film,
    pub parts: Parts,
    pub closures: Vec<Closure>,
}
