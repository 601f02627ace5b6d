/// A finish: the place that opened it, its home, and its number there.
#[derive(Clone, Copy, Debug, PartialEq, Eq, PartialOrd, Ord, Hash)]
pub struct Finish {
    pub home: u16,
    pub number: u32,
}
