// The plan of a group.

ghost use Rattle.std.specs.Prelude.{◌≡◌, ◌+◌, ◌<◌, ◌≤◌, [], ◌∷◌, ◌++◌, length, IfOk, OnOk, OnErr};
ghost use Rattle.std.specs.FinMap as map;
ghost use Rattle.std.specs.List.{All};
ghost use Rattle.std.specs.List.Sorted.{IsPermutation};
ghost use Rattle.store_model.specs.Group.{commits_of, taken_blocks};
ghost use Rattle.store_model.specs.State.{greatest_number};
ghost use Rattle.relation.specs.Parts.{bytes_bound, encoded_by, owned_by};
ghost use Rattle.group_plan.specs.Frees.{left_by};
ghost use Rattle.group_plan.specs.Groups.{AddsMember, Gathers, member_by};
ghost use Rattle.group_plan.specs.Plans.{DoesLengthen, IsPlan, holdings_by, ledger_by, members_of};
ghost use Rattle.group_plan.specs.Takings.{HasMoved, IsListed};
ghost use Rattle.group_plan.specs.declared.plan.Reply.TheVariants as reply;

use crate::giving::add_frees;
use crate::judging::{Judged, Limits, Refusal, Tally, judge};
use crate::takings::Takings;
use crate::touching::does_touch;
use blob_base::{Key, Listed, OutOfMemory, Owned};
use extent_alloc::Space;
use frame_codec::{Entries, Entry};
use relation::Relation;
use std::alloc::Global;
use txn::Request;

/// Requests, in the order of their commits.
pub type Queue = Listed<Request>;

/// Replies, in the order of the queue.
pub type Replies = Listed<Reply>;

/// The reply to a request.
#[derive(Drop)]
pub enum Reply {
    /// It is committed by the entry of this number.
    Committed {
        number: u64,
    },
    /// This key was read with the one number, and has the other now. It is the least such key.
    Conflict {
        key: Key,
        read: Option<u64>,
        now: Option<u64>,
    },
    /// The last number is this one, and there is no other behind it.
    NoNumber {
        last: u64,
    },
    /// For this key there is no free place of this tier.
    NoSpace {
        key: Key,
        tier: u32,
    },
    /// The states would take `need` bytes, and there are `have` for them.
    NoRoom {
        need: u64,
        have: u64,
    },
    /// It was told of entry `seen`, and the last one is `front`.
    Ahead {
        seen: u64,
        front: u64,
    },
}

/// What is to be done for a group.
#[derive(Drop)]
pub struct Plan {
    /// The reply to each member.
    pub replies: Replies,
    /// The entry of each member that is committed.
    pub entries: Entries,
    /// For each entry, the place of its request in the queue.
    pub members: Listed<usize>,
    /// The blocks that no state owns once the entries are made.
    pub frees: Owned,
}

// A group on the way: what is to be done for its members so far, and what they have come to.
#[derive(Drop)]
struct Group {
    plan: Plan,
    tally: Tally,
}

impl Group {
    // A group of no members behind this number.
    fn new(alloc: Global, last: u64) -> Group
        ensures replies { result.plan.replies ≡ [] }
        ensures entries { result.plan.entries ≡ [] }
        ensures members { result.plan.members ≡ [] }
        ensures frees { result.plan.frees ≡ [] }
        ensures grown { result.tally.grown ≡ 0 }
        ensures last { result.tally.last ≡ last }
    {
        Group {
            plan: Plan {
                replies: Replies::new(alloc),
                entries: Entries::new(alloc),
                members: Listed::new(alloc),
                frees: Owned::new(alloc),
            },
            tally: Tally { grown: 0, last },
        }
    }

    // Adds the entry of a member that is committed.
    fn commit(
        &mut self,
        alloc: Global,
        member: usize,
        request: &Request,
        relation: &Relation,
        judged: Judged,
    ) -> Result<(), OutOfMemory>
        requires number { self.old.tally.last < greatest_number }
        requires grown { self.old.tally.grown + judged.growth < bytes_bound }
        ensures replies { OnOk result (self.new.plan.replies ≡ self.old.plan.replies ++ reply.Committed (self.old.tally.last + 1) ∷ []) }
        ensures entries { OnOk result (self.new.plan.entries ≡ self.old.plan.entries ++ record { number = self.old.tally.last + 1; session = request.now.session; nth = request.now.nth; writes = judged.writes } ∷ []) }
        ensures members { OnOk result (self.new.plan.members ≡ self.old.plan.members ++ member ∷ []) }
        ensures frees { OnOk result (self.new.plan.frees ≡ self.old.plan.frees ++ left_by (holdings_by relation.now.states) (map.entries request.now.writes)) }
        ensures grown { OnOk result (self.new.tally.grown ≡ self.old.tally.grown + judged.growth) }
        ensures last { OnOk result (self.new.tally.last ≡ self.old.tally.last + 1) }
    {
        let number = self.tally.last + 1;
        add_frees(alloc, &request.writes, relation, &mut self.plan.frees)?;
        self.plan.members.push(alloc, member)?;
        self.plan.entries.push(
            alloc,
            Entry {
                number,
                session: request.session,
                nth: request.nth,
                writes: judged.writes,
            },
        )?;
        self.plan.replies.push(alloc, Reply::Committed { number })?;
        self.tally = Tally {
            grown: self.tally.grown + judged.growth,
            last: number,
        };
        Ok(())
    }

    // Adds the request at this place of the queue to the members.
    fn add(
        &mut self,
        alloc: Global,
        space: &mut Space,
        takings: &mut Takings,
        member: usize,
        request: &Request,
        relation: &Relation,
        limits: Limits,
    ) -> Result<(), OutOfMemory>
        requires owned { IsPermutation space.old.owned (takings.old.blocks.items ++ owned_by relation.now.states) }
        requires listed { IsListed space.old takings.old }
        requires last { self.old.tally.last ≤ greatest_number }
        requires grown { encoded_by relation.now.states + self.old.tally.grown < bytes_bound }
        requires room { limits.room < bytes_bound }
        requires lengthen { DoesLengthen relation.now.states request.now }
        ensures added { OnOk result (AddsMember relation.now.states limits request.now member (member_by relation.now.states limits self.old.tally request.now space.old takings.old) self.old self.new space.old space.new takings.old takings.new) }
        ensures moved { HasMoved space.old space.new takings.old takings.new }
    {
        let kept = takings.blocks.len();
        match judge(alloc, space, takings, request, relation, limits, self.tally) {
            Ok(judged) => self.commit(alloc, member, request, relation, judged),
            Err(Refusal::Refused { reply }) => {
                takings.give_back_from(space, kept);
                self.plan.replies.push(alloc, reply)
            }
            Err(Refusal::OutOfMemory) => Err(OutOfMemory),
        }
    }
}

// Plans the group at the front of a queue. Where there is no memory for it, blocks that were taken are listed.
fn gather(
    alloc: Global,
    queue: &Queue,
    relation: &Relation,
    space: &mut Space,
    takings: &mut Takings,
    limits: Limits,
) -> Result<Plan, OutOfMemory>
    requires owned { IsPermutation space.old.owned (owned_by relation.now.states) }
    requires none { takings.old.blocks.items ≡ [] }
    requires listed { IsListed space.old takings.old }
    requires last { limits.last ≤ greatest_number }
    requires room { limits.room < bytes_bound }
    requires lengthen { All (DoesLengthen relation.now.states) queue.now }
    ensures gathered { IfOk result (Gathers relation.now.states limits queue.now space.old space.new takings.old takings.new) }
    ensures moved { HasMoved space.old space.new takings.old takings.new }
{
    // The states take few bytes.
    let _ = relation.bytes();
    let mut group = Group::new(alloc, limits.last);
    'added: for i in 0..queue.len() {
        let request = queue.get(i);
        if does_touch(&group.plan.entries, request) {
            return Ok(group.plan);
        }
        group.add(alloc, space, takings, i, request, relation, limits)?;
    }
    Ok(group.plan)
}

// Plans the group, and makes the blocks spare that it frees.
fn settle(
    alloc: Global,
    queue: &Queue,
    relation: &Relation,
    space: &mut Space,
    takings: &mut Takings,
    limits: Limits,
) -> Result<Plan, OutOfMemory>
    requires owned { IsPermutation space.old.owned (owned_by relation.now.states) }
    requires none { takings.old.blocks.items ≡ [] }
    requires listed { IsListed space.old takings.old }
    requires last { limits.last ≤ greatest_number }
    requires room { limits.room < bytes_bound }
    requires lengthen { All (DoesLengthen relation.now.states) queue.now }
    ensures planned { IfOk result (IsPlan queue.now (members_of (ledger_by relation.now.states limits.last limits.room space.old.pages) queue.now)) }
    ensures owned { OnOk result (IsPermutation space.new.owned (taken_blocks (commits_of (members_of (ledger_by relation.now.states limits.last limits.room space.old.pages) queue.now)) ++ space.old.owned)) }
    ensures spare { IfOk result (λ plan. space.new.spare ≡ takings.old.spare + length plan.frees) }
    ensures pages { space.new.pages ≡ space.old.pages }
    ensures moved { OnErr result (HasMoved space.old space.new takings.old takings.new) }
{
    let plan = gather(alloc, queue, relation, space, takings, limits)?;
    let Some(spare) = takings.spare.checked_add(plan.frees.len()) else {
        return Err(OutOfMemory);
    };
    space.reserve(spare)?;
    space.release(spare);
    Ok(plan)
}

/// Plans the group at the front of a queue over a relation's states, where the last number is `last` and there are
/// `room` bytes for states, and takes the places of its contents in the space. What the entries free can be given back
/// without taking memory. Where there is no memory for the plan, nothing is taken.
pub fn plan_group(
    alloc: Global,
    queue: &Queue,
    relation: &Relation,
    space: &mut Space,
    room: u64,
    last: u64,
) -> Result<Plan, OutOfMemory>
    requires owned { IsPermutation space.old.owned (owned_by relation.now.states) }
    requires room { room < bytes_bound }
    requires last { last ≤ greatest_number }
    requires lengthen { All (DoesLengthen relation.now.states) queue.now }
    ensures planned { IfOk result (IsPlan queue.now (members_of (ledger_by relation.now.states last room space.old.pages) queue.now)) }
    ensures space { OnOk result (IsPermutation space.new.owned (taken_blocks (commits_of (members_of (ledger_by relation.now.states last room space.old.pages) queue.now)) ++ space.old.owned)) }
    ensures spare { IfOk result (λ plan. space.new.spare ≡ space.old.spare + length plan.frees) }
    ensures pages { space.new.pages ≡ space.old.pages }
    ensures err { OnErr result (IsPermutation space.new.owned space.old.owned) }
    ensures err_spare { OnErr result (space.new.spare ≡ space.old.spare) }
{
    let mut takings = Takings::new(alloc, space);
    let limits = Limits { last, room };
    match settle(alloc, queue, relation, space, &mut takings, limits) {
        Ok(plan) => Ok(plan),
        Err(OutOfMemory) => {
            takings.give_back_from(space, 0);
            space.release(takings.spare);
            Err(OutOfMemory)
        }
    }
}
