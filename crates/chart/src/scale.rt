//! Places on a line.
ghost use Rattle.std.specs.Prelude.{◌≡◌, ℕ, ◌+◌, ◌<◌, ◌≤◌};
ghost use Rattle.chart.specs.Scaled.{scaled};

/// A line of the sheet on which a list is laid out: place 0 stands where it starts, the end of the
/// list where it ends.
#[derive(Clone, Copy)]
pub struct Scale {
    /// Where the line starts.
    pub start: u16,
    /// How long it is.
    pub length: u16,
    /// How many places the list has.
    pub count: usize,
}

impl Scale {
    /// Where a place stands: no place stands before one that comes before it, and none outside the
    /// line. A place behind the end of the list stands at the line's end.
    pub fn at(self, place: usize) -> usize
        ensures value { result ≡ scaled self.start self.length self.count place }
        ensures from { self.start ≤ result }
        ensures within { result ≤ self.start + self.length }
        ensures end { 0 < self.count → self.count ≤ place
            → result ≡ self.start + self.length }
        ensures rises { (before : ℕ) → before ≤ place
            → scaled self.start self.length self.count before ≤ result }
    {
        let start = usize::from(self.start);
        if self.count == 0 {
            return start;
        }
        let inside = place.min(self.count);
        let offset = inside as u128 * u128::from(self.length) / self.count as u128;
        start + offset as usize
    }
}
