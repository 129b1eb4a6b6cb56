//! What a run records, kept step by step.

ghost use Rattle.std.specs.Prelude.{◌≡◌, ℕ, ◌+◌, ◌^◌, ◌<◌, List, ◌++◌, Some, None, Err, length};
ghost use Rattle.std.specs.Prelude.{slice_index, vec_len, unwrap_or, IfOk, OnOk};
ghost use Rattle.scq_word.specs.Exports.{n_of};
ghost use Rattle.scq_core.specs.Exports.{machine_of, IsReachable};
ghost use Rattle.scq_law.specs.Run.{Recorded, recorded_reply, first_placer, recorded_by};
ghost use Rattle.scq_law.specs.Run.{recorded_first};
ghost use Rattle.scq_law.specs.Acts.{IsOnRing, starts_by, puts_after_act, names_by, resets_by};
ghost use Rattle.scq_law.specs.Acts.{fails_by};
ghost use Rattle.scq_law.specs.Names.{name_at, placer_in};
ghost use Rattle.scq_law.specs.Replay.{Counts};
ghost use Rattle.scq_law.specs.Recording.{Shows, CountsCanRise, AddsTurn, finishes_by};

use crate::act::{Act, act_of, ended};
use crate::replayed::Replayed;
use scq_core::{ApplyFault, Ended, Phase, State, Step};
use scq_hist::{Call, Event, PutName, Reply};
use scq_word::{Bytes, NoMemory, Setup};
use std::alloc::Global;
use std::collections::HashMap;

/// The names of the puts that placed on one ring, by place; the opening puts are not among them.
pub(crate) type Names = HashMap<u64, PutName>;

/// No put has this name, since a seat's puts are numbered from 1.
const NOBODY: PutName = PutName::Of { seat: 0, number: 0 };

/// What is recorded of a run so far: its state and history, how many puts each seat has begun, and
/// for each ring the puts that placed there, and its resets and fails.
#[derive(Drop)]
pub(crate) struct Recording {
    pub(crate) state: State,
    pub(crate) events: Vec<Event>,
    pub(crate) puts: Vec<u64>,
    pub(crate) names: Vec<Names>,
    pub(crate) resets: Vec<u64>,
    pub(crate) fails: Vec<u64>,
}

impl Recording {
    /// What is recorded before the first step.
    pub(crate) fn first(
        alloc: Global,
        setup: Setup,
        opening: Vec<Bytes>,
    ) -> Result<Recording, NoMemory>
        requires { vec_len opening ≡ n_of setup.order }
        ensures { IfOk result (Shows setup (recorded_first setup opening.items)) }
    {
        let rings = setup.rings();
        Ok(Recording {
            events: Vec::new(alloc),
            puts: no_counts(alloc, setup.seats())?,
            names: no_names(alloc, rings as usize)?,
            resets: no_counts(alloc, rings)?,
            fails: no_counts(alloc, rings)?,
            state: State::start(alloc, setup, opening)?,
        })
    }

    /// What a replay answers of it.
    pub(crate) fn replayed(self) -> Replayed
        ensures state { result.state ≡ self.state }
        ensures events { result.events ≡ self.events }
        ensures resets { result.resets ≡ self.resets }
        ensures fails { result.fails ≡ self.fails }
    {
        let Recording {
            state,
            events,
            resets,
            fails,
            ..
        } = self;
        Replayed {
            state,
            events,
            resets,
            fails,
        }
    }

    /// One more step.
    pub(crate) fn make(&mut self, setup: &Setup, seat: u32, step: &Step) -> Result<(), ApplyFault>
        requires seat { seat < setup.now.seats }
        requires room { CountsCanRise self.old }
        requires shown { (recorded : Recorded) × Shows setup.now recorded self.old
            × IsReachable setup.now recorded.state }
        ensures ok { (recorded : Recorded) → Shows setup.now recorded self.old
            → OnOk result ((next : Recorded)
            × (recorded_by setup.now recorded (seat, step.now) ≡ Some next)
            × Shows setup.now next self.new) }
        ensures not_enabled { (recorded : Recorded) → Shows setup.now recorded self.old
            → result ≡ Err ApplyFault.NotEnabled
            → recorded_by setup.now recorded (seat, step.now) ≡ None }
    {
        let alloc = *self.events.allocator();
        let act = act_of(alloc, self.state.phase(seat), step)?;
        self.state.apply(seat, step)?;
        self.add_turn(setup, seat, act)?;
        Ok(())
    }

    /// What the seat's turn, which led to the state, adds to the rest.
    fn add_turn(&mut self, setup: &Setup, seat: u32, act: Act) -> Result<(), NoMemory>
        requires seats { seat < self.old.state.setup.seats }
        requires puts { seat < vec_len self.old.puts }
        requires names { IsOnRing (vec_len self.old.names) act }
        requires resets { IsOnRing (vec_len self.old.resets) act }
        requires fails { IsOnRing (vec_len self.old.fails) act }
        requires room { CountsCanRise self.old }
        ensures { OnOk result
            (AddsTurn setup.now seat act
            ((machine_of self.old.state).part seat) self.old self.new) }
    {
        let next = self.state.phase(seat);
        count_put(&mut self.puts, seat, &act);
        let name = PutName::Of {
            seat,
            number: self.puts[seat as usize],
        };
        name_place(&mut self.names, &act, next, name)?;
        count_turn(&mut self.resets, &mut self.fails, &act, next);
        begin(&mut self.events, seat, act)?;
        finish(&mut self.events, setup, &self.names, &self.state, seat)
    }
}

/// For each of so many nothing is counted.
fn no_counts(alloc: Global, many: u32) -> Result<Vec<u64>, NoMemory>
    ensures { IfOk result (λ counts. Counts many counts.items (λ _. 0)) }
{
    Ok(vec![in alloc; 0; many as usize]?)
}

/// A map for each ring, with no name in it.
fn no_names(alloc: Global, rings: usize) -> Result<Vec<Names>, NoMemory>
    ensures many { IfOk result (λ names. vec_len names ≡ rings) }
    ensures none { IfOk result (λ names. (r p : ℕ) → name_at names.items r p ≡ None) }
{
    let mut names = Vec::new(alloc);
    for _ in 0..rings {
        names.push(HashMap::new(alloc))?;
    }
    Ok(names)
}

/// One more put of the seat, where one begins.
fn count_put(puts: &mut Vec<u64>, seat: u32, act: &Act)
    requires seat { seat < vec_len puts.old }
    requires room { slice_index puts.old.items seat + 1 < 2 ^ 64 }
    ensures { puts.new.items ≡ puts_after_act seat act.now puts.old.items }
{
    if let Act::Begins(Call::Put { .. }) = act {
        puts[seat as usize] += 1;
    }
}

/// The put of this name has placed, where the exchange has succeeded.
fn name_place(
    names: &mut Vec<Names>,
    act: &Act,
    next: &Phase,
    name: PutName,
) -> Result<(), NoMemory>
    requires { IsOnRing (vec_len names.old) act.now }
    ensures many { OnOk result (vec_len names.new ≡ vec_len names.old) }
    ensures names { OnOk result ((r p : ℕ)
        → name_at names.new.items r p
        ≡ names_by act.now next.now name (name_at names.old.items) r p) }
{
    if let (Act::Exchanges { ring, place }, Phase::AtE5 { .. }) = (act, next) {
        names[*ring as usize].insert(*place, name)?;
    }
    Ok(())
}

/// One more reset, after which no attempt has failed; or one more failed attempt.
fn count_turn(resets: &mut Vec<u64>, fails: &mut Vec<u64>, act: &Act, next: &Phase)
    requires resets { IsOnRing (vec_len resets.old) act.now }
    requires fails { IsOnRing (vec_len fails.old) act.now }
    requires reset_room { (r : ℕ) → slice_index resets.old.items r + 1 < 2 ^ 64 }
    requires fail_room { (r : ℕ) → slice_index fails.old.items r + 1 < 2 ^ 64 }
    ensures resets { resets.new.items ≡ resets_by act.now next.now resets.old.items }
    ensures fails { fails.new.items ≡ fails_by act.now next.now fails.old.items }
{
    match (act, next) {
        (Act::Settles { ring }, Phase::Idle) => {
            resets[*ring as usize] += 1;
            fails[*ring as usize] = 0;
        }
        (Act::Fails { ring }, _) => fails[*ring as usize] += 1,
        _ => {}
    }
}

/// The Start of the call, where the turn begins one.
fn begin(events: &mut Vec<Event>, seat: u32, act: Act) -> Result<(), NoMemory>
    ensures { OnOk result (events.new.items ≡ events.old.items ++ starts_by seat act) }
{
    if let Act::Begins(call) = act {
        events.push(Event::Start { seat, call })?;
    }
    Ok(())
}

/// The End of the call that has ended, where the seat is idle.
fn finish(
    events: &mut Vec<Event>,
    setup: &Setup,
    names: &[Names],
    state: &State,
    seat: u32,
) -> Result<(), NoMemory>
    requires { seat < state.now.setup.seats }
    ensures { OnOk result
        (events.new.items
        ≡ events.old.items
        ++ finishes_by seat (placer_in setup.now (name_at names.now))
        ((machine_of state.now).part seat)) }
{
    if let Some(ended) = ended(state, seat) {
        let alloc = *events.allocator();
        let reply = recorded_reply(alloc, setup, names, ended)?;
        events.push(Event::End { seat, reply })?;
    }
    Ok(())
}

/// The reply of a call that has ended.
fn recorded_reply(
    alloc: Global,
    setup: &Setup,
    names: &[Names],
    ended: &Ended,
) -> Result<Reply, NoMemory>
    ensures { IfOk result (λ reply.
        reply ≡ recorded_reply (placer_in setup.now (name_at names.now)) ended.now) }
{
    match ended {
        Ended::Done { .. } => Ok(Reply::Done),
        Ended::Got {
            ring,
            place,
            content,
        } => Ok(Reply::Got {
            name: placer(setup, names, *ring, *place),
            content: Bytes::copy_of(alloc, content.bytes())?,
        }),
        Ended::Nothing { .. } => Ok(Reply::Nothing),
        Ended::Spent { .. } => Ok(Reply::Spent),
    }
}

/// The put that placed at the place of the ring: where none has, an opening put, or nobody.
fn placer(setup: &Setup, names: &[Names], ring: u32, place: u64) -> PutName
    ensures { result ≡ placer_in setup.now (name_at names.now) ring place }
{
    match name_at(names, ring, place) {
        Some(name) => name,
        None => first_placer(setup, ring, place),
    }
}

/// The put that placed there since the start, if one did.
fn name_at(names: &[Names], ring: u32, place: u64) -> Option<PutName>
    ensures { result ≡ name_at names.now ring place }
{
    names.get(ring as usize)?.get(&place).copied()
}

/// At the start opening put j stands in ring 0, at the place j behind the number of slots.
fn first_placer(setup: &Setup, ring: u32, place: u64) -> PutName
    ensures { result ≡ first_placer setup.now ring place }
{
    let first = u64::from(setup.shape().slots());
    if ring == 0 && first <= place && place < first + u64::from(setup.shape().n()) {
        PutName::Opening {
            number: (place - first) as u32,
        }
    } else {
        NOBODY
    }
}
