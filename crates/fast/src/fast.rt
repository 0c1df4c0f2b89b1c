ghost use Rattle.std.specs.Prelude.{◌≤◌};

pub mod calls;

// A fast plan: its channels carry 1, 2, 4, 8 pages and so on, each its pages one after the other.
#[derive(Clone, Copy)]
pub struct Fast {
    channels: u8,
    ghost few: { (1 ≤ channels) × (channels ≤ 8) },
}
