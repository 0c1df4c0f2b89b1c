// The records of a plan, as plain numbers. A film is cut into pages; pages circle on channels, slot by slot.
ghost use Rattle.std.specs.Prelude.{Decides};
ghost use Rattle.records.specs.Ranges.{FilmInRange};

// The numbers of a film: the delay in slots before it starts, its pages, and the channels that carry it.
#[derive(Clone, Copy, Debug, PartialEq, Eq)]
pub struct Film {
    pub delay: u16,
    pub pages: u16,
    pub channels: u8,
}

impl Film {
    // Whether its numbers are such as a plan can be made for.
    pub fn is_in_range(&self) -> bool
        ensures decides { Decides result (FilmInRange self.now) }
    {
        (1..=1024).contains(&self.delay)
            && (1..=1024).contains(&self.pages)
            && (1..=8).contains(&self.channels)
    }
}

// One channel of a pagoda plan, by the number of its subchannels.
#[derive(Clone, Copy, Debug, PartialEq, Eq)]
pub struct Channel {
    pub subchannels: u8,
}

// A page that a channel carries in the slots start, start + period, start + 2 * period and so on.
#[derive(Clone, Copy, Debug, Default, PartialEq, Eq)]
pub struct Row {
    pub page: u16,
    pub channel: u8,
    pub start: u32,
    pub period: u32,
}

// A node of a tree plan that carries a page.
#[derive(Clone, Copy, Debug, PartialEq, Eq)]
pub struct Leaf {
    pub page: u16,
}

// A node of a tree plan that hands its turns round to `degree` children, the first of which is the node `first_child`.
#[derive(Clone, Copy, Debug, PartialEq, Eq)]
pub struct Inner {
    pub first_child: u16,
    pub degree: u16,
}

// A node of a tree plan.
#[derive(Clone, Copy, Debug, PartialEq, Eq)]
pub enum Node {
    Leaf(Leaf),
    Inner(Inner),
}

// An entry, one channel in one slot, that is closed: nothing is sent in it.
#[derive(Clone, Copy, Debug, Default, PartialEq, Eq)]
pub struct Closure {
    pub channel: u8,
    pub slot: u32,
}

// The end of a plan file.
#[derive(Clone, Copy, Debug, PartialEq, Eq)]
pub struct End {}
