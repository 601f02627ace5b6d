/// What a place tells the home of a finish: how many of the finish's activities it has sent to each
/// place, and received from each.
#[derive(Debug, Drop)]
pub struct Report {
    /// The place that reports.
    pub place: u16,
    /// The number of the finish at its home.
    pub number: u32,
    pub sent: Vec<u32>,
    pub received: Vec<u32>,
}
