// A plan with its period, as a timetable.
ghost use Rattle.schedule.specs.Schedules.{meant, meant_lawful};

use planner::pagoda::Pagoda;
use records::kinds::{Node, Row};
use rows::rows::Rows;
use timetable::interface::Timetable;
use tree::plan::Tree;

// The plan of a film, of one of the three sorts.
#[derive(Drop)]
pub enum Schedule {
    Pagoda(Pagoda),
    Rows(Rows<Vec<Row>>),
    Tree(Tree<Vec<Node>>),
}

impl Timetable for Schedule {
    ghost meaning = { λ s. meant s };

    ghost lawful = { λ s. meant_lawful s };

    fn channels(&self) -> u8 {
        match self {
            Schedule::Pagoda(plan) => plan.channels(),
            Schedule::Rows(plan) => plan.channels(),
            Schedule::Tree(plan) => plan.channels(),
        }
    }

    fn period(&self) -> u32 {
        match self {
            Schedule::Pagoda(plan) => plan.period(),
            Schedule::Rows(plan) => plan.period(),
            Schedule::Tree(plan) => plan.period(),
        }
    }

    fn page_at(&self, channel: u8, slot: u32) -> u16 {
        match self {
            Schedule::Pagoda(plan) => plan.page_at(channel, slot),
            Schedule::Rows(plan) => plan.page_at(channel, slot),
            Schedule::Tree(plan) => plan.page_at(channel, slot),
        }
    }
}
