// Where a station stands.
#[derive(Clone, Copy, Debug, PartialEq, Eq)]
pub enum Phase {
    // Not checked since it was built, or since an entry was closed or opened, or since it was withdrawn.
    Open,
    // Checked, and not yet on air.
    Passed,
    // On air, with the slot that is sent next.
    OnAir(u32),
}
