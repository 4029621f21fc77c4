// The judgement of a request in its group.

ghost use Rattle.std.specs.Prelude.{◌≡◌, ◌+◌, ◌≤◌, ◌<◌, ◌++◌, IfOk, IfErr};
ghost use Rattle.std.specs.FinMap as map;
ghost use Rattle.std.specs.List.Sorted.{IsPermutation};
ghost use Rattle.store_model.specs.State.{greatest_number};
ghost use Rattle.store_model.specs.Turn.{same_number};
ghost use Rattle.relation.specs.Parts.{bytes_bound, encoded_by, owned_by};
ghost use Rattle.group_plan.specs.Plans.{DoesLengthen};
ghost use Rattle.group_plan.specs.Takings.{IsListed};
ghost use Rattle.group_plan.specs.Judgements.{IsConflict, IsJudged, IsRefusal, number_by};
ghost use Rattle.group_plan.specs.declared.judging.Refusal.TheVariants as refusal;

use crate::placing::place_all;
use crate::plan::Reply;
use crate::takings::Takings;
use blob_base::{Key, OutOfMemory};
use blob_state::MAX_NUMBER;
use extent_alloc::Space;
use frame_codec::Writes;
use relation::Relation;
use std::alloc::Global;
use txn::{Reads, Request};

/// Why a request isn't placed or committed.
#[derive(Drop)]
pub(crate) enum Refusal {
    /// It is refused by this reply.
    Refused { reply: Reply },
    /// There was no memory.
    OutOfMemory,
}

impl From<OutOfMemory> for Refusal {
    ghost from_gives = { λ _ e. e ≡ refusal.OutOfMemory };

    fn from(_: OutOfMemory) -> Self {
        Refusal::OutOfMemory
    }
}

/// What a group is judged by besides the states and the space: the last number before it, and how many bytes there are
/// for states.
#[derive(Clone, Copy)]
pub(crate) struct Limits {
    pub(crate) last: u64,
    pub(crate) room: u64,
}

/// What the committing members of a group have come to so far: by how many bytes the states grew, and the last number.
#[derive(Clone, Copy)]
pub(crate) struct Tally {
    pub(crate) grown: u64,
    pub(crate) last: u64,
}

/// What an entry writes for a request that is committed, and by how many bytes the states grow.
#[derive(Drop)]
pub(crate) struct Judged {
    pub(crate) writes: Writes,
    pub(crate) growth: u64,
}

// The number of a key, or none.
fn number_of(relation: &Relation, key: &Key) -> Option<u64>
    ensures { result ≡ number_by relation.now.states key.now }
{
    match relation.get(key) {
        Some(state) => Some(state.born()),
        None => None,
    }
}

// Whether two numbers, either of them perhaps missing, are the same.
fn is_same(one: Option<u64>, other: Option<u64>) -> bool
    ensures { result ≡ same_number one other }
{
    match (one, other) {
        (Some(one), Some(other)) => one == other,
        (None, None) => true,
        _ => false,
    }
}

// The conflict of the first read whose key has another number now.
fn first_moved(reads: &Reads, relation: &Relation) -> Option<Reply>
    ensures { IsConflict relation.now.states (map.entries reads.now) result }
{
    'looked: for i in 0..reads.len() {
        let (key, read) = reads.nth(i);
        let read = *read;
        let now = number_of(relation, key);
        let same = is_same(read, now);
        if same {
            continue;
        }
        let key = key.copy();
        return Some(Reply::Conflict { key, read, now });
    }
    None
}

/// Judges a request behind those that came to this tally, and takes its places. Where it is refused, some of them may
/// have been taken.
pub(crate) fn judge(
    alloc: Global,
    space: &mut Space,
    takings: &mut Takings,
    request: &Request,
    relation: &Relation,
    limits: Limits,
    tally: Tally,
) -> Result<Judged, Refusal>
    requires owned { IsPermutation space.old.owned (takings.old.blocks.items ++ owned_by relation.now.states) }
    requires listed { IsListed space.old takings.old }
    requires last { tally.last ≤ greatest_number }
    requires grown { encoded_by relation.now.states + tally.grown < bytes_bound }
    requires lengthen { DoesLengthen relation.now.states request.now }
    ensures judged { IfOk result (IsJudged relation.now.states limits tally request.now space.old space.new takings.old takings.new) }
    ensures refusal { IfErr result (IsRefusal relation.now.states limits tally request.now space.old space.new takings.old takings.new) }
{
    if limits.last < request.seen {
        return Err(Refusal::Refused {
            reply: Reply::Ahead {
                seen: request.seen,
                front: limits.last,
            },
        });
    }
    if let Some(reply) = first_moved(&request.reads, relation) {
        return Err(Refusal::Refused { reply });
    }
    if tally.last >= MAX_NUMBER {
        return Err(Refusal::Refused {
            reply: Reply::NoNumber { last: tally.last },
        });
    }
    let placed = place_all(
        alloc,
        space,
        takings,
        &request.writes,
        relation,
        tally.last + 1,
    )?;
    let growth = placed.added.saturating_sub(placed.replaced);
    let need = relation.bytes() + tally.grown + growth;
    let have = limits.room;
    if have < need {
        return Err(Refusal::Refused {
            reply: Reply::NoRoom { need, have },
        });
    }
    Ok(Judged {
        writes: placed.writes,
        growth,
    })
}
