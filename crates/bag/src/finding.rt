ghost use Rattle.bag.specs.Findings.{lower};
ghost use Rattle.std.proofs.Common.{rules};

use crate::ranked::Ranked;

// A page that starves, and the first slot at which it does.
#[derive(Clone, Copy, Debug, Default, PartialEq, Eq, PartialOrd, Ord)]
pub struct Finding {
    pub page: u16,
    pub slot: u32,
}

impl Ranked for Finding {
    ghost before = { lower };

    ghost blank = { record { page = 0; slot = 0 } };

    ghost ordered = { Prim.search rules };

    fn comes_before(&self, other: &Self, _window: u32) -> bool {
        self < other
    }

    fn zero() -> Self {
        Self::default()
    }
}
