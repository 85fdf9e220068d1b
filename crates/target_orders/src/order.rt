/// What it takes to make a fact hold.
#[derive(Clone, Copy, PartialEq, Eq)]
pub enum Order {
    /// No event: it holds in any case.
    Always,
    /// Nothing does.
    Never,
    /// Some events, but it depends on too many facts or events to be listed.
    Large,
    /// So many events, and no fewer.
    Least(u32),
}
