//! Rows in ascending order of their moments: those between two moments.
ghost use Rattle.std.specs.Prelude.{◌≡◌, ◌≤◌, ◌&&◌, filter, length, nat_le, nat_lt, true, false};
ghost use Rattle.std.specs.List.Sorted.{IsNonDecreasingBy, IsPartitionPoint};

use vlink::{Row, Time};

/// Returns those of the rows whose moments are at or after `from` and before `to`, in ns, in their order. The moments of the rows must not
/// fall. Takes no memory; its time is logarithmic in the number of rows.
pub fn rows_in_time(rows: &[Row], from: Time, to: Time) -> &[Row]
    requires { IsNonDecreasingBy (λ row. row.message.time) rows.now }
    ensures { result.now ≡ filter (λ row. nat_le from row.message.time && nat_lt row.message.time to) rows.now }
{
    let begin = count_before(rows, from);
    let end = count_before(rows, to).max(begin);
    &rows[begin..end]
}

/// Returns how many of these rows are earlier than a moment. The moments of the rows must not fall.
pub fn count_before(rows: &[Row], moment: Time) -> usize
    requires { IsNonDecreasingBy (λ row. row.message.time) rows.now }
    ensures within { result ≤ length rows.now }
    ensures point { IsPartitionPoint (λ row. nat_lt row.message.time moment ≡ true) (λ row. nat_lt row.message.time moment ≡ false) rows.now result }
{
    rows.partition_point(|row| row.message.time < moment)
}
