//! What the program leaves, in bytes, on a host that knows them.
ghost use Rattle.std.specs.Prelude.{◌≡◌, ℕ, [], List, None, Some, IfSome, map, option_map};
ghost use Rattle.command_line.specs.declared.orders.Order.{Order};
ghost use Rattle.network.specs.Words.{Plan};
ghost use Rattle.netdesc.specs.Words.{Describes};
ghost use Rattle.commands.specs.Files.{ShowsAlone, WritesFile};
ghost use Rattle.commands.specs.Naming.{journal_of, net_of, trace_of};
ghost use Rattle.commands.specs.Reading.{GivesNetwork};
ghost use Rattle.commands.specs.Sequencing.{IsTraceText};
ghost use Rattle.afdxsim.specs.Performing.{Means, found_in};
ghost use Rattle.afdxsim.specs.Workers.{IsJournalText};

use crate::perform;
use commands::{Host, TellingHost};
use std::alloc::Global;
use std::convert::AsStr;
use std::sync::Wait;
use std::thread::Threads;
use std::time::Clock;

/// Returns the status with which the program ends. With status 0 the words mean an order on the network that was read. The last thing that
/// happened to the host, apart from what was shown, is that a file was created, took just the journal, if one is asked for, otherwise just
/// the trace, and was given back.
fn status_on<'a, S: AsStr, H: Host, T: Threads + Wait + Clock + Sync>(
    rt: &T,
    alloc: Global,
    words: &'a [S],
    host: &mut H,
) -> u8
    ensures { found_in (map S.text words.entry.now) ≡ [] → result ≡ 0 → (order : Order) × (plan : Plan) ×
        Means (map S.text words.entry.now) order × GivesNetwork (H.outside.gives host.old (net_of order)) plan ×
        (journal_of order ≡ None → IfSome (trace_of order) (λ path. (before : H) × (after : H) ×
        WritesFile H.outside path (IsTraceText plan) before after × ShowsAlone H.outside after host.new)) ×
        IfSome (journal_of order) (λ path. (before : H) × (after : H) ×
        WritesFile H.outside path (IsJournalText plan) before after × ShowsAlone H.outside after host.new) }
{
    perform(rt, alloc, words, host)
}

/// Returns the status with which the program ends. A clause states what is left on this host, in bytes: with status 0 the words mean an
/// order on the network that `net.toml` describes, and the file that was given back last contains just the journal, if one is asked for,
/// otherwise just the trace.
fn status_of<'a, S: AsStr, R: Copy + Send + Sync + Threads + Wait + Clock>(
    rt: &R,
    alloc: Global,
    words: &'a [S],
    host: &mut TellingHost<R>,
) -> u8
    ensures { found_in (map S.text words.entry.now) ≡ [] → result ≡ 0 → (order : Order) × (plan : Plan) ×
        Means (map S.text words.entry.now) order × Describes host.old.net.items plan ×
        (journal_of order ≡ None → IfSome (trace_of order) (λ _. (bytes : List ℕ) ×
        (option_map (λ file. file.bytes.items) host.new.last ≡ Some bytes) × IsTraceText plan bytes)) ×
        IfSome (journal_of order) (λ _. (bytes : List ℕ) ×
        (option_map (λ file. file.bytes.items) host.new.last ≡ Some bytes) × IsJournalText plan bytes) }
{
    status_on(rt, alloc, words, host)
}
