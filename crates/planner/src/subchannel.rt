// Some of the slots of a channel, and the pages that it carries in them one after the other: `pages` pages from `first` on.
#[derive(Clone, Copy, Debug, PartialEq, Eq)]
pub struct Subchannel {
    pub first: u16,
    pub pages: u16,
}
