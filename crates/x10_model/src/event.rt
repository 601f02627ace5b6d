/// What happens next in a world.
#[derive(Clone, Copy, Debug, PartialEq, Eq)]
pub enum Event {
    /// The activity with a key at a place makes one move.
    Step(u16, usize),
    /// The message with a number is taken in at the place that it is for.
    Deliver(u64),
}
