//! An exchange and its processes at the start.
ghost use Rattle.std.specs.Prelude.{◌≡◌, ℕ, ◌+◌, ◌<◌, ◌≤◌, ◌^◌, [], All, map, replicate, length, slice_get, slice_index, Some, is_some, IfOk, IfErr};
ghost use Rattle.vlink.specs.declared.time.TheConstants.{GREATEST_NS};
ghost use Rattle.vlink.specs.Order.{message_order};
ghost use Rattle.virtual_time.specs.Law.{plus_of, received_by};
ghost use Rattle.antimessages.specs.Mailing.{letters_for};
ghost use Rattle.reverse.specs.Rules.{rules_of};
ghost use Rattle.reverse.specs.Setting.{Opens, IsLaidOut};
ghost use Rattle.journal.specs.declared.fault.PoolFault.TheVariants.{OutOfMemory};
ghost use Rattle.journal.specs.Listing.{is_shared};
ghost use Rattle.process_exchange.specs.Views.{blank, unplaced, opened_held};

use crate::exchange::Exchange;
use crate::held::Held;
use crate::mark::Standing;
use crate::pairs::Pairs;
use crate::run_of::ActorRun;
use antimessages::{Mail, plus_letters};
use gvt::Floors;
use halves::{LeftHalf, RightHalf};
use journal::{Block, Entries, PoolFault, Table};
use process_queues::Process;
use reverse::{Actor, Outbound, actor_law};
use std::alloc::Global;
use std::marker::PhantomData;
use vlink::{Message, Time, process_number};

impl<R: Actor + Drop, J: ActorRun<R>> Exchange<R, J> {
    /// Makes an exchange without entries, and a process in hand for each actor, in order. Each actor is in its opening state, the offers
    /// are in the mail, every floor is the moment after the end, and GVT is 0. The journal can have `limit` steps. If a table is given, the
    /// journal is stored and has its places there. Only memory can be refused.
    pub fn open(
        alloc: Global,
        actors: Vec<R>,
        offers: &[Message],
        until: Time,
        table: Option<Table>,
        pairs: Pairs,
        limit: u64,
    ) -> Result<(Exchange<R, J>, Vec<Held<R, J>>), PoolFault>
        requires opens { Opens J.setting actors.items offers.now }
        requires until { until ≡ J.setting.until }
        requires end { until < GREATEST_NS }
        requires layout { IsLaidOut (rules_of R.plain) R.number R.end R.is_placed J.setting }
        requires keeps { is_some table ≡ J.keeps }
        requires names { pairs ≡ J.names }
        requires each { length J.names ≡ J.setting.processes }
        requires few { J.setting.processes ≤ 4096 }
        requires some { 1 ≤ limit }
        requires most { limit ≤ 2 ^ 62 }
        ensures exchange { IfOk result (λ r. r.0 ≡ record { entries = []; marks = replicate J.setting.processes blank; shared = is_shared table; limit = limit }) }
        ensures count { IfOk result (λ r. length r.1.items ≡ J.setting.processes) }
        ensures helds { IfOk result (λ r. (p : ℕ) → p < J.setting.processes → slice_get r.1.items p ≡ Some (opened_held J.setting.opening p)) }
        ensures memory { IfErr result (λ fault. fault ≡ OutOfMemory) }
    {
        let count = process_number(actors.len());
        let Pairs { lefts, rights } = pairs;
        let exchange = Exchange::at_start(alloc, count, offers, until, table, lefts, limit)?;
        let helds = helds_of(alloc, actors, rights, until)?;
        Ok((exchange, helds))
    }

    /// Makes an exchange without entries for this number of processes.
    fn at_start(
        alloc: Global,
        processes: u16,
        offers: &[Message],
        until: Time,
        table: Option<Table>,
        marks: Vec<LeftHalf<Standing>>,
        limit: u64,
    ) -> Result<Exchange<R, J>, PoolFault>
        requires processes { processes ≡ J.setting.processes }
        requires offers { offers.now ≡ J.setting.offers }
        requires until { until ≡ J.setting.until }
        requires end { until < GREATEST_NS }
        requires layout { IsLaidOut (rules_of R.plain) R.number R.end R.is_placed J.setting }
        requires keeps { is_some table ≡ J.keeps }
        requires names { map (λ b. b.name) marks.items ≡ J.names }
        requires blanks { map (λ b. b.value) marks.items ≡ replicate J.setting.processes unplaced }
        requires some { 1 ≤ limit }
        requires most { limit ≤ 2 ^ 62 }
        ensures opened { IfOk result (λ exchange. exchange ≡ record { entries = []; marks = replicate J.setting.processes blank; shared = is_shared table; limit = limit }) }
        ensures memory { IfErr result (λ fault. fault ≡ OutOfMemory) }
    {
        actor_law::<R>();
        let journal = Entries::new(alloc, table);
        let (mail, floors) = mail_and_floors(alloc, processes, offers, until)?;
        Ok(Exchange {
            mail,
            floors,
            gvt: Time::default(),
            journal,
            steps: 0,
            marks,
            limit,
            of: PhantomData,
        })
    }
}

/// Makes the mail of this number of processes, with the offers in it, and their floors: each is the moment after the end.
fn mail_and_floors(
    alloc: Global,
    processes: u16,
    offers: &[Message],
    until: Time,
) -> Result<(Mail, Floors), PoolFault>
    requires end { until < GREATEST_NS }
    requires receivers { All (λ letter. letter.message.receiver < processes) (map plus_of offers.now) }
    ensures boxes { IfOk result (λ r. length r.0 ≡ processes) }
    ensures letters { IfOk result (λ r. (p : ℕ) → letters_for p r.0 ≡ received_by message_order p (map plus_of offers.now)) }
    ensures floors { IfOk result (λ r. length r.1.floors ≡ processes) }
    ensures each { IfOk result (λ r. (p : ℕ) → p < processes → slice_get r.1.floors p ≡ Some (until + 1)) }
    ensures until { IfOk result (λ r. r.1.until ≡ until) }
    ensures memory { IfErr result (λ fault. fault ≡ OutOfMemory) }
{
    let floors = Floors::new(alloc, processes, until)?;
    let letters = plus_letters(alloc, offers)?;
    let mail = Mail::with_letters(alloc, processes, &letters)?;
    Ok((mail, floors))
}

/// Makes a process in hand for each actor, in order.
fn helds_of<R: Actor + Drop, J: ActorRun<R>>(
    alloc: Global,
    actors: Vec<R>,
    mut marks: Vec<RightHalf<Standing>>,
    until: Time,
) -> Result<Vec<Held<R, J>>, PoolFault>
    requires count { length actors.items ≡ J.setting.processes }
    requires each { (p : ℕ) → p < J.setting.processes → slice_get actors.items p ≡ Some (J.setting.opening p) }
    requires layout { IsLaidOut (rules_of R.plain) R.number R.end R.is_placed J.setting }
    requires names { map (λ s. s.name) marks.items ≡ J.names }
    requires each_name { length J.names ≡ J.setting.processes }
    requires blanks { map (λ s. s.value) marks.items ≡ replicate (length marks.items) unplaced }
    requires few { J.setting.processes ≤ 4096 }
    ensures count { IfOk result (λ helds. length helds.items ≡ J.setting.processes) }
    ensures each { IfOk result (λ helds. (p : ℕ) → p < J.setting.processes → slice_get helds.items p ≡ Some (opened_held J.setting.opening p)) }
    ensures memory { IfErr result (λ fault. fault ≡ OutOfMemory) }
{
    let mut helds = Vec::with_capacity(alloc, actors.len())?;
    for actor in actors {
        let number = process_number(helds.len());
        let mark = marks.remove(0);
        let held = Held::open(alloc, number, actor, mark, until)?;
        helds.push_reserved(held);
    }
    Ok(helds)
}

impl<R: Actor, J: ActorRun<R>> Held<R, J> {
    /// Makes the process with this number, which has done nothing.
    fn open(
        alloc: Global,
        number: u16,
        actor: R,
        mark: RightHalf<Standing>,
        until: Time,
    ) -> Result<Self, PoolFault>
        requires within { number < J.setting.processes }
        requires actor { actor ≡ J.setting.opening number }
        requires name { mark.name ≡ slice_index J.names number }
        requires blank { mark.value ≡ unplaced }
        requires layout { IsLaidOut (rules_of R.plain) R.number R.end R.is_placed J.setting }
        ensures opened { IfOk result (λ held. held ≡ opened_held J.setting.opening number) }
        ensures memory { IfErr result (λ fault. fault ≡ OutOfMemory) }
    {
        actor_law::<R>();
        match Process::new(alloc, actor) {
            Ok(process) => Ok(Held {
                process,
                number,
                runs: 0,
                block: Block::new(),
                standing: Standing {
                    last: None,
                    seen: Time::default(),
                },
                mark,
                gone: Time::default(),
                out: Outbound::new(number, until, 0),
                alloc,
                of: PhantomData,
            }),
            Err(_fault) => Err(PoolFault::OutOfMemory),
        }
    }
}
