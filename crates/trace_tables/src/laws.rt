//! What the tables state of the rows, and that they depend on the rows of each process alone.
ghost use Rattle.std.specs.Prelude.{ℕ, ◌≡◌, ◌<◌, ◌≤◌, [], List, length};
ghost use Rattle.std.specs.List.{All, Contains};
ghost use Rattle.std.specs.List.Sorted.{IsStrictlySortedBy};
ghost use Rattle.std.specs.Map.{keys_of, values_of};
ghost use Rattle.virtual_time.specs.Law.{rows_at};
ghost use Rattle.vlink.specs.Letters.{Row};
ghost use Rattle.network.specs.Words.{Plan};
ghost use Rattle.trace_tables.specs.declared.loss.Loss.{Loss};
ghost use Rattle.trace_segments.specs.Words.{gathered};
ghost use Rattle.trace_tables.specs.Counting.{times_lost, times_delivered};
ghost use Rattle.trace_tables.specs.Latencies.{counts_of, latencies_of};
ghost use Rattle.trace_tables.specs.Losses.{loss_cmp, count_in};
ghost use Rattle.trace_tables.specs.Tables.{drop_table, tables_of};

/// What a table of drops states of rows.
///
/// - `counted`: the count of a loss is the number of rows of the network with that loss; a loss that the table lacks has the count 0.
/// - `ascending`: each loss is listed once, in the order of virtual links, then of processes, then of causes.
/// - `positive`: no loss is listed with the count 0.
pub fn drop_counts_law()
    ensures counted { (plan : Plan) (rows : List Row) (loss : Loss) → count_in (drop_table plan rows) loss ≡ times_lost plan loss rows }
    ensures ascending { (plan : Plan) (rows : List Row) → IsStrictlySortedBy loss_cmp (keys_of (drop_table plan rows)) }
    ensures positive { (plan : Plan) (rows : List Row) → All (λ n. 0 < n) (values_of (drop_table plan rows)) }
{}

/// The counts of latencies, besides their sum. Latencies are in ns.
///
/// - `counted`: the count is the number of rows with a delivery of the virtual link at the process.
/// - `least`, `greatest`: each latency is at least the one and at most the other.
/// - `least_occurs`, `greatest_occurs`: if there is a latency, each of the two is one.
pub fn latency_counts_law()
    ensures counted { (vl place : ℕ) (rows : List Row) → (counts_of (latencies_of vl place rows)).count ≡ times_delivered vl place rows }
    ensures least { (latencies : List ℕ) → All (λ l. (counts_of latencies).least ≤ l) latencies }
    ensures greatest { (latencies : List ℕ) → All (λ l. l ≤ (counts_of latencies).greatest) latencies }
    ensures least_occurs { (latencies : List ℕ) → 0 < length latencies → Contains latencies (counts_of latencies).least }
    ensures greatest_occurs { (latencies : List ℕ) → 0 < length latencies → Contains latencies (counts_of latencies).greatest }
{}

/// The tables depend only on the rows of each process, in their order there: the order between rows of different processes makes no
/// difference. So a run whose rows are gathered process by process has the tables of the one-thread run, if each process has the rows that
/// it has there.
///
/// - `by_place`: rows that are the same at each process have the same tables.
/// - `gathered`: the rows of the first processes, put one process after another, have the tables of all rows, if no others have rows.
pub fn tables_by_place_law()
    ensures by_place { (plan : Plan) (xs ys : List Row) → ((p : ℕ) → rows_at p xs ≡ rows_at p ys) → tables_of plan xs ≡ tables_of plan ys }
    ensures gathered { (plan : Plan) (rows : List Row) (processes : ℕ) (rows_of : ℕ → List Row) → ((p : ℕ) → p < processes → rows_of p ≡ rows_at p rows)
        → ((p : ℕ) → processes ≤ p → rows_at p rows ≡ []) → tables_of plan (gathered processes rows_of) ≡ tables_of plan rows }
{}
