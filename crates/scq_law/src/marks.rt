//! What is marked of a run for the order of one ring.

ghost use Rattle.std.specs.Prelude.{◌≡◌, ◌+◌, ◌++◌, ◌<◌, ◌^◌, ℕ, [], None, false, true, IfOk, OnOk};
ghost use Rattle.std.specs.Prelude.{MatchOption, max, vec_len, slice_index, replicate};
ghost use Rattle.std.specs.Option.{option_copied};
ghost use Rattle.scq_law.specs.declared.marks.Member.{Member as TheMember};
ghost use Rattle.scq_law.specs.declared.ordered.Ordered.TheVariants.{Call as TheCall};
ghost use Rattle.scq_law.specs.Notes.{marked, puts_by, gets_by, decided_by, decisions_by, calls_by};
ghost use Rattle.scq_law.specs.Notes.{is_on, mark_or, Rise, IsPutMark, IsMarkedKey, AddsMember};
ghost use Rattle.scq_law.specs.Notes.{token};

use crate::note::Note;
use crate::ordered::Ordered;
use scq_core::Ended;
use scq_word::NoMemory;
use std::alloc::Global;
use std::collections::HashMap;

/// What a key says between the point and the place: at one point a Nothing comes first, then puts,
/// then gets.
const NOTHING: u8 = 0;

const PUT: u8 = 1;

const GET: u8 = 2;

/// A step by which a dequeue decided that the ring is empty: the Head there, and its point.
#[derive(Clone, Copy)]
pub(crate) struct Decision {
    pub(crate) head: u64,
    pub(crate) point: u64,
}

/// A member of the order, with its key: the point, what it is, and the place.
#[derive(Clone, Copy)]
pub(crate) struct Member {
    pub(crate) key: (u64, u8, u64),
    pub(crate) ordered: Ordered,
}

impl Member {
    /// The opening put of this index, in a ring of so many slots.
    pub(crate) fn opening(slots: u64, number: u32) -> Member
        requires { slots + number < 2 ^ 64 }
        ensures { result ≡ token slots number }
    {
        Member {
            key: (0, PUT, slots + u64::from(number)),
            ordered: Ordered::Opening { number },
        }
    }
}

/// What is marked of the steps so far. A point is how many steps were made with the one that is
/// marked.
#[derive(Drop)]
pub(crate) struct Marks {
    pub(crate) ring: u32,
    /// Where each place was drawn for an enqueue, and for a dequeue.
    pub(crate) puts: HashMap<u64, u64>,
    pub(crate) gets: HashMap<u64, u64>,
    /// The deciding steps, in their order, and the last one of each seat.
    pub(crate) decisions: Vec<Decision>,
    pub(crate) decided: HashMap<u32, u64>,
    /// How many calls of each seat have ended.
    pub(crate) calls: Vec<u64>,
    pub(crate) members: Vec<Member>,
}

impl Marks {
    /// What is marked of no step.
    pub(crate) fn none(
        alloc: Global,
        ring: u32,
        seats: u32,
        members: Vec<Member>,
    ) -> Result<Marks, NoMemory>
        ensures ring { IfOk result (λ marks. marks.ring ≡ ring) }
        ensures puts { IfOk result (λ marks. (p : ℕ) → marked marks.puts p ≡ None) }
        ensures gets { IfOk result (λ marks. (p : ℕ) → marked marks.gets p ≡ None) }
        ensures decided { IfOk result (λ marks. (k : ℕ) → marked marks.decided k ≡ None) }
        ensures decisions { IfOk result (λ marks. marks.decisions.items ≡ []) }
        ensures calls { IfOk result (λ marks. marks.calls.items ≡ replicate seats 0) }
        ensures members { IfOk result (λ marks. marks.members.items ≡ members.items) }
    {
        Ok(Marks {
            ring,
            puts: HashMap::new(alloc),
            gets: HashMap::new(alloc),
            decisions: Vec::new(alloc),
            decided: HashMap::new(alloc),
            calls: vec![in alloc; 0; seats as usize]?,
            members,
        })
    }

    /// Marks a turn of a seat, by what it is to the order.
    pub(crate) fn note(&mut self, note: Note, seat: u32, point: u64) -> Result<(), NoMemory>
        ensures ring { OnOk result (self.new.ring ≡ self.old.ring) }
        ensures puts { OnOk result ((p : ℕ)
            → marked self.new.puts p ≡ puts_by note point (marked self.old.puts) p) }
        ensures gets { OnOk result ((p : ℕ)
            → marked self.new.gets p ≡ gets_by note point (marked self.old.gets) p) }
        ensures decided { OnOk result ((k : ℕ)
            → marked self.new.decided k ≡ decided_by note seat point (marked self.old.decided) k) }
        ensures decisions { OnOk result (self.new.decisions.items
            ≡ decisions_by note point self.old.decisions.items) }
        ensures calls { OnOk result (self.new.calls ≡ self.old.calls) }
        ensures members { OnOk result (self.new.members ≡ self.old.members) }
    {
        match note {
            Note::DrawsPut { place } => {
                self.puts.insert(place, point)?;
            }
            Note::DrawsGet { place } => {
                self.gets.insert(place, point)?;
            }
            Note::Decides { head } => {
                self.decisions.push(Decision { head, point })?;
                self.decided.insert(seat, point)?;
            }
            Note::Passes => {}
        }
        Ok(())
    }

    /// Adds the call of the seat that its turn has ended, if it has ended one.
    pub(crate) fn finish(&mut self, seat: u32, ended: Option<&Ended>) -> Result<(), NoMemory>
        requires seat { seat < vec_len self.old.calls }
        requires room { slice_index self.old.calls.items seat + 1 < 2 ^ 64 }
        ensures ring { OnOk result (self.new.ring ≡ self.old.ring) }
        ensures puts { OnOk result (self.new.puts ≡ self.old.puts) }
        ensures gets { OnOk result (self.new.gets ≡ self.old.gets) }
        ensures decided { OnOk result (self.new.decided ≡ self.old.decided) }
        ensures decisions { OnOk result (self.new.decisions ≡ self.old.decisions) }
        ensures calls { OnOk result (self.new.calls.items
            ≡ calls_by seat (option_copied ended.entry) self.old.calls.items) }
        ensures members { OnOk result (AddsMember self.old.ring (marked self.old.puts)
            (marked self.old.gets) (marked self.old.decided) self.old.decisions.items
            seat (slice_index self.old.calls.items seat
            + 1) (option_copied ended.entry) self.old.members.items self.new.members.items) }
    {
        if let Some(ended) = ended {
            self.calls[seat as usize] += 1;
            let number = self.calls[seat as usize];
            if let Some(member) = self.member_of(seat, number, ended) {
                self.members.push(member)?;
            }
        }
        Ok(())
    }

    /// The member that this call of the seat is, if it is one of the ring.
    fn member_of(&self, seat: u32, number: u64, ended: &Ended) -> Option<Member>
        ensures { MatchOption result (is_on self.now.ring ended.now ≡ false)
            (λ m. (is_on self.now.ring ended.now ≡ true) × (m.ordered ≡ TheCall seat number)
            × IsMarkedKey (marked self.now.puts) (marked self.now.gets)
            (marked self.now.decided) self.now.decisions.items seat ended.now m.key) }
    {
        let ordered = Ordered::Call { seat, number };
        let key = match ended {
            Ended::Done {
                ring: on,
                place,
                ..
            } if *on == self.ring => (self.put_point(*place), PUT, *place),
            Ended::Got {
                ring: on,
                place,
                ..
            } if *on == self.ring => (self.get_point(*place), GET, *place),
            Ended::Nothing { ring: on } if *on == self.ring => {
                (self.nothing_point(seat), NOTHING, 0)
            }
            _ => return None,
        };
        Some(Member { key, ordered })
    }

    /// The point of the put at this place.
    fn put_point(&self, place: u64) -> u64
        ensures { Rise self.now.decisions.items
            → IsPutMark self.now.decisions.items
            (mark_or (marked self.now.puts place)) place result }
    {
        last_decision(&self.decisions, self.drawn_for_put(place), place)
    }

    /// The point of the get at this place. The decisions don't matter: where Head is no further
    /// than the place, it has not been drawn for the get.
    fn get_point(&self, place: u64) -> u64
        ensures { result
            ≡ max (mark_or (marked self.now.gets place)) (mark_or (marked self.now.puts place)) }
    {
        let drawn = self.gets.get(&place).copied().unwrap_or(0);
        drawn.max(self.drawn_for_put(place))
    }

    /// The point at which the seat's newest call decided that the ring is empty.
    fn nothing_point(&self, seat: u32) -> u64
        ensures { result ≡ mark_or (marked self.now.decided seat) }
    {
        self.decided.get(&seat).copied().unwrap_or(0)
    }

    /// The point at which this place was drawn for an enqueue, or 0 for an opening put.
    fn drawn_for_put(&self, place: u64) -> u64
        ensures { result ≡ mark_or (marked self.now.puts place) }
    {
        self.puts.get(&place).copied().unwrap_or(0)
    }
}

/// The point of the last decision with a Head no further than the place, or the first point where
/// that is later.
fn last_decision(decisions: &[Decision], first: u64, place: u64) -> u64
    ensures { Rise decisions.now → IsPutMark decisions.now first place result }
{
    let after = decisions.partition_point(|decision| decision.head <= place);
    if after == 0 {
        first
    } else {
        first.max(decisions[after - 1].point)
    }
}
