//! One alteration of all parts, or of none: all memory is reserved before the first part is changed.
ghost use Rattle.std.specs.Prelude.{◌≡◌, ◌⊎◌, ◌<◌, ◌≤◌, ◌&&◌, not, [], ◌∷◌, ◌++◌, length, cond, true, false, None, Some, OnOk, OnErr, IsOkUnless};
ghost use Rattle.std.specs.Option.{option_map_or};
ghost use Rattle.change_core.specs.declared.changes.Change.{Change};
ghost use Rattle.change_core.specs.Members.{greatest, members as members_of};
ghost use Rattle.change_core.specs.Numbers.{greatest_number};
ghost use Rattle.change_core.specs.Status.{is_serving};
ghost use Rattle.detector_core.specs.Timers.{HasTimer};
ghost use Rattle.gossip_core.specs.Dissemination.{with_news, adjusted};
ghost use Rattle.hash_ring.specs.RingModel.{HasRoom, ring_of};
ghost use Rattle.hash_ring.specs.Servers.{with_server, without};
ghost use Rattle.hash_ring.specs.Serving.{server_of};
ghost use Rattle.member_core.specs.Membership.{IsMembership};
ghost use Rattle.node_core.specs.Configs.{IsConfig};
ghost use Rattle.node_core.specs.Edits.{entry_in, IsTimed, MayEdit};
ghost use Rattle.node_core.specs.Node.{has_deadline, is_timed, next_status, timers_with, wait_for};
ghost use Rattle.node_core.specs.Room.{TakesPlace};

use crate::configs::Config;
use crate::errors::NodeError;
use crate::rings::SharedRing;
use change_core::{Address, Change, Entry, Moment, Sourced, Status};
use detector_core::Timers;
use gossip_core::Gossip;
use hash_ring::PointHash;
use member_core::{Members, Verdict};

/// The change that is written to the membership: the verdict on a given change, or the node's own assertion.
#[derive(Clone, Copy)]
pub(crate) enum Edit {
    Judged(Verdict),
    Own(Change),
}

/// Writes the entries of such a change. For an unknown address there has to be room.
fn edit_members(members: &mut Members, edit: Edit)
    requires valid { IsMembership members.old.own members.old.members members.old.max }
    requires may { MayEdit members.old edit }
    requires room { (c : Change) → entry_in edit ≡ Some c → greatest members.old.members c.address ≡ None → 0 < members.old.room }
    ensures value { (c : Change) → entry_in edit ≡ Some c → members.new.members ≡ members_of (members.old.members ++ c ∷ []) }
    ensures own { members.new.own.address ≡ members.old.own.address }
    ensures max { members.new.max ≡ members.old.max }
    ensures valid { IsMembership members.new.own members.new.members members.new.max }
{
    match edit {
        Edit::Judged(verdict) => members.commit(verdict),
        Edit::Own(change) => members.commit_own(change),
    }
}

/// Adds a serving member to the ring, and removes another.
fn edit_ring<H: PointHash>(ring: &mut SharedRing<H>, change: &Change)
    requires room { is_serving change.now.status ≡ true → HasRoom ring.old (server_of change.now) }
    ensures { ring.new ≡ ring_of ring.old.hash (H.hash_of ring.old.hash) ring.old.replicas
        (cond (is_serving change.now.status) (with_server (server_of change.now) ring.old.servers) (without change.now.address ring.old.servers)) ring.new.room }
{
    if change.status.serving() {
        ring.add(change.address, change.weight);
    } else {
        ring.remove(change.address);
    }
}

/// Returns the status that an entry of this status gets at its deadline. One that has none stays.
fn next_status(status: Status) -> Status
    ensures { result ≡ next_status status }
{
    match status {
        Status::Suspect => Status::Faulty,
        Status::Faulty => Status::Tombstone,
        _ => status,
    }
}

/// Returns after how many milliseconds an entry of this status reaches its deadline, and 0 if it has none.
fn wait_for(config: &Config, status: Status) -> u64
    requires configured { IsConfig config.now }
    ensures value { result ≡ wait_for config.now status }
    ensures within { result ≤ greatest_number }
{
    match status {
        Status::Suspect => config.suspect_ms,
        Status::Faulty => config.faulty_ms,
        _ => 0,
    }
}

/// Returns whether entries of this status have a deadline.
fn has_deadline(status: Status) -> bool
    ensures { result ≡ has_deadline status }
{
    matches!(status, Status::Suspect | Status::Faulty)
}

/// Returns whether an entry has a timer: it has a deadline and is another node's.
fn is_timed(own: Address, change: &Change) -> bool
    ensures { result ≡ is_timed own change.now }
{
    has_deadline(change.status) && change.address != own
}

/// Returns whether a timer has to be made for an entry: it has one, and the entry before it had none.
fn wants_timer(own: Address, change: &Change, held: Option<Entry>) -> bool
    ensures { result ≡ (is_timed own change.now && not (option_map_or (λ e. has_deadline e.status) held false)) }
{
    let waits = match held {
        Some(entry) => has_deadline(entry.status),
        None => false,
    };
    is_timed(own, change) && !waits
}

/// A timer runs exactly for another's suspect or faulty entry.
fn edit_timers(timers: &mut Timers, own: Address, config: &Config, moment: Moment, change: &Change)
    requires room { is_timed own change.now ≡ true → (0 < timers.old.room) ⊎ HasTimer timers.old.timers change.now.address }
    requires configured { IsConfig config.now }
    ensures { timers.new.timers ≡ timers_with own config.now moment timers.old.timers change.now }
{
    if is_timed(own, change) {
        timers.set(
            change.address,
            change.incarnation,
            next_status(change.status),
            moment.number() + wait_for(config, change.status),
        );
    } else {
        timers.clear(change.address);
    }
}

/// Makes room for the timer of an entry, if one has to be made.
fn reserve_timer(
    timers: &mut Timers,
    own: Address,
    change: &Change,
    held: Option<Entry>,
) -> Result<(), NodeError>
    requires timed { is_timed own change.now ≡ true → option_map_or (λ e. has_deadline e.status) held false ≡ true
        → HasTimer timers.old.timers change.now.address }
    ensures timers { timers.new.timers ≡ timers.old.timers }
    ensures room { OnOk result (is_timed own change.now ≡ true → (0 < timers.new.room) ⊎ HasTimer timers.new.timers change.now.address) }
    ensures out_of_memory { OnErr result ((is_timed own change.now && not (option_map_or (λ e. has_deadline e.status) held false)) ≡ true) }
    ensures refusal { IsOkUnless result NodeError.Memory }
{
    if !wants_timer(own, change, held) {
        return Ok(());
    }
    timers.reserve_one()?;
    Ok(())
}

/// Makes room for the change in each part that needs it, and then makes the change pending: the last allocation, and
/// the first alteration.
fn make_room<H: PointHash>(
    members: &mut Members,
    ring: &mut SharedRing<H>,
    gossip: &mut Gossip,
    timers: &mut Timers,
    news: &Sourced,
) -> Result<(), NodeError>
    requires timed { IsTimed members.old.own.address members.old.members timers.old.timers news.now.change.address }
    ensures members { members.new ≡ record members.old { room = members.new.room } }
    ensures ring { ring.new ≡ record ring.old { room = ring.new.room } }
    ensures timers { timers.new.timers ≡ timers.old.timers }
    ensures members_room { OnOk result (greatest members.old.members news.now.change.address ≡ None → 0 < members.new.room) }
    ensures ring_room { OnOk result (is_serving news.now.change.status ≡ true → HasRoom ring.new (server_of news.now.change)) }
    ensures timers_room { OnOk result (is_timed members.old.own.address news.now.change ≡ true
        → (0 < timers.new.room) ⊎ HasTimer timers.new.timers news.now.change.address) }
    ensures put { OnOk result (gossip.new ≡ with_news gossip.old news.now) }
    ensures err { OnErr result (gossip.new ≡ gossip.old) }
    ensures out_of_memory { OnErr result (TakesPlace members.old.own.address members.old.members ring.old.servers gossip.old.pending news.now.change) }
    ensures refusal { IsOkUnless result NodeError.Memory }
{
    let change = &news.change;
    let own = members.own();
    let held = members.get(change.address);
    if held.is_none() {
        members.reserve_one()?;
    }
    if change.status.serving() {
        ring.reserve_for(change.address, change.weight)?;
    }
    reserve_timer(timers, own.address, change, held)?;
    gossip.put(*news)?;
    Ok(())
}

/// Makes one alteration in all parts, or none in any; after an error only room may have been made. The parts are passed
/// one by one: between two alterations they are those of no node, and a method of the node would have to keep its
/// invariant.
pub(crate) fn alter_parts<H: PointHash>(
    members: &mut Members,
    ring: &mut SharedRing<H>,
    gossip: &mut Gossip,
    timers: &mut Timers,
    config: &Config,
    moment: Moment,
    edit: Edit,
    news: &Sourced,
) -> Result<(), NodeError>
    requires valid { IsMembership members.old.own members.old.members members.old.max }
    requires may { MayEdit members.old edit }
    requires entry { entry_in edit ≡ Some news.now.change }
    requires timed { IsTimed members.old.own.address members.old.members timers.old.timers news.now.change.address }
    requires configured { IsConfig config.now }
    ensures ok_members { OnOk result (members.new.members ≡ members_of (members.old.members ++ news.now.change ∷ [])) }
    ensures own { members.new.own.address ≡ members.old.own.address }
    ensures max { members.new.max ≡ members.old.max }
    ensures valid { OnOk result (IsMembership members.new.own members.new.members members.new.max) }
    ensures ok_ring { OnOk result (ring.new ≡ ring_of ring.old.hash (H.hash_of ring.old.hash) ring.old.replicas
        (cond (is_serving news.now.change.status) (with_server (server_of news.now.change) ring.old.servers) (without news.now.change.address ring.old.servers)) ring.new.room) }
    ensures ok_timers { OnOk result (timers.new.timers ≡ timers_with members.old.own.address config.now moment timers.old.timers news.now.change) }
    ensures ok_gossip { OnOk result (gossip.new ≡ adjusted (with_news gossip.old news.now) (length ring.new.servers)) }
    ensures err_members { OnErr result (members.new ≡ record members.old { room = members.new.room }) }
    ensures err_ring { OnErr result (ring.new ≡ record ring.old { room = ring.new.room }) }
    ensures err_rest { OnErr result ((timers.new.timers ≡ timers.old.timers) × (gossip.new ≡ gossip.old)) }
    ensures out_of_memory { OnErr result (TakesPlace members.old.own.address members.old.members ring.old.servers gossip.old.pending news.now.change) }
    ensures refusal { IsOkUnless result NodeError.Memory }
{
    make_room(members, ring, gossip, timers, news)?;
    edit_members(members, edit);
    edit_ring(ring, &news.change);
    let own = members.own();
    edit_timers(timers, own.address, config, moment, &news.change);
    gossip.adjust(ring.len());
    Ok(())
}
