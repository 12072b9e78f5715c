//! A list in columns.
ghost use Rattle.std.specs.Prelude.{◌≡◌, ◌≢◌, ◌+◌, ◌<◌, ◌≤◌, ℕ, length, slice_index, slice_range};
ghost use Rattle.std.specs.Prelude.{IfSome, IsNone};
ghost use Rattle.chart.specs.Columns.{share, IsLeast, IsGreatest};

/// Neighbouring places of a list, and the least and the greatest value there.
#[derive(Clone, Copy)]
pub struct Column {
    /// The first place.
    pub first: usize,
    /// The place behind the last.
    pub end: usize,
    /// The least value.
    pub least: usize,
    /// The greatest value.
    pub greatest: usize,
}

// Where a column begins, and where the one before it ends.
fn share_of(count: usize, columns: usize, column: usize) -> usize
    requires some { 0 < columns }
    requires within { column ≤ columns }
    ensures value { result ≡ share count columns column }
    ensures within { result ≤ count }
{
    let product = column as u128 * count as u128;
    (product / columns as u128) as usize
}

fn least_of(values: &[usize]) -> usize
    requires { 0 < length values.now }
    ensures { IsLeast values.now result }
{
    let mut least = values[0];
    for value in values {
        if *value < least {
            least = *value;
        }
    }
    least
}

fn greatest_of(values: &[usize]) -> usize
    requires { 0 < length values.now }
    ensures { IsGreatest values.now result }
{
    let mut greatest = values[0];
    for value in values {
        if *value > greatest {
            greatest = *value;
        }
    }
    greatest
}

/// One of the columns that a list is shared out to. Each has a place, each begins where the one
/// before it ends, and together they are the list.
pub fn column_of(values: &[usize], columns: usize, column: usize) -> Column
    requires within { column < columns }
    requires enough { columns ≤ length values.now }
    ensures first { result.first ≡ share (length values.now) columns column }
    ensures end { result.end ≡ share (length values.now) columns (column + 1) }
    ensures some { result.first < result.end }
    ensures starts { column ≡ 0 → result.first ≡ 0 }
    ensures ends { column + 1 ≡ columns → result.end ≡ length values.now }
    ensures least { IsLeast (slice_range values.now result.first result.end) result.least }
    ensures greatest { IsGreatest (slice_range values.now result.first result.end) result.greatest }
{
    let first = share_of(values.len(), columns, column);
    let end = share_of(values.len(), columns, column + 1);
    let inside = &values[first..end];
    Column {
        first,
        end,
        least: least_of(inside),
        greatest: greatest_of(inside),
    }
}

/// The first place of a value.
pub fn place_of(values: &[usize], wanted: usize) -> Option<usize>
    ensures some { IfSome result (λ place. (place < length values.now)
        × (slice_index values.now place ≡ wanted)) }
    ensures none { IsNone result → (i : ℕ) → i < length values.now
        → slice_index values.now i ≢ wanted }
    ensures first { IfSome result (λ place. (i : ℕ) → i < place
        → slice_index values.now i ≢ wanted) }
{
    values.iter().position(|value| *value == wanted)
}
