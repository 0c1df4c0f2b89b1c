// What is rehearsed, and what comes of it.
use feeding::viewing::Viewing;
use station::call::{Call, Reply};

// The calls of a run: first these, and then, by where the station stands after them, one list or the other.
#[derive(Drop)]
pub struct Script {
    pub opening: Vec<Call>,
    // Where the station is passed and not on air.
    pub passed: Vec<Call>,
    pub otherwise: Vec<Call>,
}

// A receiver with room for so many pages that tunes in at a tick; the granted ticks of the run are counted from 0.
#[derive(Clone, Copy)]
pub struct Viewer {
    pub tick: usize,
    pub capacity: u16,
}

// The reply to each call, and what the receiver showed.
#[derive(Drop)]
pub struct Rehearsal {
    pub replies: Vec<Reply>,
    pub viewing: Viewing,
}
