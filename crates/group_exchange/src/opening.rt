//! An exchange and its groups at the start.
ghost use Rattle.std.specs.Prelude.{◌≡◌, ℕ, ◌<◌, ◌≤◌, ◌^◌, ◌+◌, suc, true, false, [], map, replicate, length, slice_get, slice_index, All, Some, None, OnOk, IfOk, IfErr};
ghost use Rattle.vlink.specs.declared.time.TheConstants.{GREATEST_NS};
ghost use Rattle.reverse.specs.Rules.{rules_of};
ghost use Rattle.reverse.specs.Setting.{Opens, IsLaidOut};
ghost use Rattle.journal.specs.declared.fault.PoolFault.TheVariants.{OutOfMemory};
ghost use Rattle.group_exchange.specs.Views.{GroupState, IsUnplaced, blank, is_of};
ghost use Rattle.group_exchange.specs.Keeps.{AreGrouped};
ghost use Rattle.group_exchange.specs.Opening.{AreMembersOf, HasOpened};

use crate::group::Group;
use crate::groups::GroupExchange;
use crate::mark::{Standing, tell_both};
use crate::pairs::Pairs;
use crate::run_of::GroupRun;
use crate::splitting::{members_of, some_of};
use crate::steps::Steps;
use group_boxes::Boxes;
use group_hand::{Hand, hand_law};
use gvt::Floors;
use halves::{LeftHalf, RightHalf};
use journal::PoolFault;
use reverse::{Actor, actor_law};
use std::alloc::Global;
use std::marker::PhantomData;
use vlink::{Message, Time, process_number};

impl<R: Actor + Drop, J: GroupRun<R>> GroupExchange<R, J> {
    /// An exchange with no step, and a group in hand for each pair of marks, in order: `owners` has for each actor the number of its group. Each actor is
    /// in its opening state, the offers are on their way, every floor is the moment after the end, and GVT is 0. The journal can have `limit` steps; `keeps`
    /// says whether it is kept to be read. It is refused for memory alone.
    pub fn open(
        alloc: Global,
        actors: Vec<R>,
        offers: &[Message],
        owners: Vec<u16>,
        until: Time,
        keeps: bool,
        pairs: Pairs,
        limit: u64,
    ) -> Result<(GroupExchange<R, J>, Vec<Group<R, J>>), PoolFault>
        requires opens { Opens J.setting actors.items offers.now }
        requires owners { owners.items ≡ J.owners }
        requires grouped { AreGrouped J.setting.processes (length J.names) J.owners }
        requires until { until ≡ J.setting.until }
        requires end { until < GREATEST_NS }
        requires layout { IsLaidOut (rules_of R.plain) R.number R.end R.is_placed J.setting }
        requires keeps { keeps ≡ J.keeps }
        requires names { pairs ≡ J.names }
        requires few { J.setting.processes ≤ 4096 }
        requires few_groups { length J.names ≤ 4096 }
        requires most { limit ≤ 2 ^ 62 }
        ensures exchange { IfOk result (λ r. r.0 ≡ record { steps = []; marks = replicate (length J.names) blank; limit = limit }) }
        ensures count { IfOk result (λ r. length r.1.items ≡ length J.names) }
        ensures groups { IfOk result (λ r. (g : ℕ) → g < length J.names → (k : GroupState R R.Record) × (slice_get r.1.items g ≡ Some k) × HasOpened J.setting J.owners g k) }
        ensures memory { IfErr result (λ fault. fault ≡ OutOfMemory) }
    {
        actor_law::<R>();
        let journal = Steps::new(alloc, keeps);
        let end = Time::of_known(until.ns() + 1);
        let Pairs { lefts, rights } = pairs;
        let count = process_number(lefts.len());
        let mut lefts = lefts;
        let groups = groups_of(alloc, actors, &owners, &mut lefts, rights, end, keeps)?;
        let boxes = Boxes::with_offers(alloc, count, owners, offers)?;
        let floors = Floors::new(alloc, count, until)?;
        let exchange = GroupExchange {
            boxes,
            floors,
            gvt: Time::default(),
            journal,
            marks: lefts,
            limit,
            end,
            of: PhantomData,
        };
        Ok((exchange, groups))
    }
}

/// Makes a group in hand for each mark, in order, with the actors of its number.
fn groups_of<R: Actor + Drop, J: GroupRun<R>>(
    alloc: Global,
    actors: Vec<R>,
    owners: &[u16],
    lefts: &mut Vec<LeftHalf<Standing>>,
    mut marks: Vec<RightHalf<Standing>>,
    end: Time,
    keeps: bool,
) -> Result<Vec<Group<R, J>>, PoolFault>
    requires count { length actors.items ≡ J.setting.processes }
    requires each { (p : ℕ) → p < J.setting.processes → slice_get actors.items p ≡ Some (J.setting.opening p) }
    requires owners { owners.now ≡ J.owners }
    requires grouped { AreGrouped J.setting.processes (length J.names) J.owners }
    requires layout { IsLaidOut (rules_of R.plain) R.number R.end R.is_placed J.setting }
    requires names { map (λ s. s.name) marks.items ≡ J.names }
    requires left_names { map (λ b. b.name) lefts.old.items ≡ J.names }
    requires blanks { All IsUnplaced (map (λ b. b.value) lefts.old.items) }
    requires end { end ≡ suc J.setting.until }
    requires keeps { keeps ≡ J.keeps }
    requires few { length J.names ≤ 4096 }
    ensures count { IfOk result (λ groups. length groups.items ≡ length J.names) }
    ensures each { IfOk result (λ groups. (g : ℕ) → g < length J.names →
        (k : GroupState R R.Record) × (slice_get groups.items g ≡ Some k) × HasOpened J.setting J.owners g k) }
    ensures left_names { map (λ b. b.name) lefts.new.items ≡ J.names }
    ensures blanks { All IsUnplaced (map (λ b. b.value) lefts.new.items) }
    ensures memory { IfErr result (λ fault. fault ≡ OutOfMemory) }
{
    let mut slots = some_of(alloc, actors)?;
    let groups = open_all(alloc, &mut slots, owners, lefts, &mut marks, end, keeps);
    drop(slots);
    drop(marks);
    groups
}

/// Makes the groups, in order, each with the actors of its number, which leave their slots, and the first mark that is left.
fn open_all<R: Actor + Drop, J: GroupRun<R>>(
    alloc: Global,
    slots: &mut Vec<Option<R>>,
    owners: &[u16],
    lefts: &mut Vec<LeftHalf<Standing>>,
    marks: &mut Vec<RightHalf<Standing>>,
    end: Time,
    keeps: bool,
) -> Result<Vec<Group<R, J>>, PoolFault>
    requires count { length slots.old.items ≡ J.setting.processes }
    requires each { (p : ℕ) → p < J.setting.processes → slice_get slots.old.items p ≡ Some (Some (J.setting.opening p)) }
    requires owners { owners.now ≡ J.owners }
    requires grouped { AreGrouped J.setting.processes (length J.names) J.owners }
    requires layout { IsLaidOut (rules_of R.plain) R.number R.end R.is_placed J.setting }
    requires names { map (λ s. s.name) marks.old.items ≡ J.names }
    requires left_names { map (λ b. b.name) lefts.old.items ≡ J.names }
    requires blanks { All IsUnplaced (map (λ b. b.value) lefts.old.items) }
    requires end { end ≡ suc J.setting.until }
    requires keeps { keeps ≡ J.keeps }
    requires few { length J.names ≤ 4096 }
    ensures count { IfOk result (λ groups. length groups.items ≡ length J.names) }
    ensures each { IfOk result (λ groups. (g : ℕ) → g < length J.names →
        (k : GroupState R R.Record) × (slice_get groups.items g ≡ Some k) × HasOpened J.setting J.owners g k) }
    ensures left_names { map (λ b. b.name) lefts.new.items ≡ J.names }
    ensures blanks { All IsUnplaced (map (λ b. b.value) lefts.new.items) }
    ensures memory { IfErr result (λ fault. fault ≡ OutOfMemory) }
{
    let count = process_number(marks.len());
    let mut groups = Vec::with_capacity(alloc, usize::from(count))?;
    for made in 0..count {
        let members = members_of(alloc, slots, owners, made)?;
        let mut mark = marks.remove(0);
        let standing = Standing::unplaced(alloc);
        tell_both(lefts, &mut mark, made, &standing);
        let group = Group::open(alloc, made, members, standing, mark, end, keeps)?;
        groups.push_reserved(group);
    }
    Ok(groups)
}

impl<R: Actor + Drop, J: GroupRun<R>> Group<R, J> {
    /// Makes the group with this number and these members, which has done nothing.
    fn open(
        alloc: Global,
        number: u16,
        members: Vec<Option<R>>,
        standing: Standing,
        mark: RightHalf<Standing>,
        end: Time,
        keeps: bool,
    ) -> Result<Self, PoolFault>
        requires within { number < length J.names }
        requires members { AreMembersOf J.setting J.owners number members.items }
        requires grouped { AreGrouped J.setting.processes (length J.names) J.owners }
        requires layout { IsLaidOut (rules_of R.plain) R.number R.end R.is_placed J.setting }
        requires name { mark.name ≡ slice_index J.names number }
        requires told { mark.value ≡ standing }
        requires blank { IsUnplaced standing }
        requires end { end ≡ suc J.setting.until }
        requires keeps { keeps ≡ J.keeps }
        ensures opened { IfOk result (HasOpened J.setting J.owners number) }
        ensures memory { IfErr result (λ fault. fault ≡ OutOfMemory) }
    {
        actor_law::<R>();
        hand_law::<R>();
        let mut runs = Vec::new(alloc);
        runs.resize(members.len(), 0)?;
        match Hand::new(alloc, members, Vec::new(alloc), keeps) {
            Ok(hand) => Ok(Group {
                hand,
                number,
                standing,
                mark,
                gone: Time::default(),
                runs,
                end,
                alloc,
                of: PhantomData,
            }),
            Err(_fault) => Err(PoolFault::OutOfMemory),
        }
    }
}
