//! The puts that wait: they were finished, and no get that had started by then has got them.

ghost use Rattle.std.specs.Prelude.{◌≡◌, ◌<◌, ◌≤◌, ◌^◌, ◌↔◌, ℕ, IsTrue, IfSome, MatchOption};
ghost use Rattle.std.specs.Prelude.{length};
ghost use Rattle.scq_hist.specs.Exports.{IsGot, IsFirstNamed};
ghost use Rattle.scq_hist.specs.declared.events.PutName.{PutName as ThePutName};
ghost use Rattle.scq_check.specs.Failures.{AreFailures};
ghost use Rattle.scq_check.specs.Waiting.{IsLeftOut, IsTokenLeftOut, IsPutLeftOut, IsToldPut};
ghost use Rattle.scq_check.specs.Waiting.{AreWaiting, IsToldWithin, told_of};
ghost use Rattle.scq_check.specs.Tables.{AreOfLawful, HasEvent};

use crate::failures::Failures;
use crate::tables::Tables;
use scq_hist::{Event, PutName};
use scq_word::Bytes;

/// Finished puts that no get which had started by then has got. One of them is told: the first that
/// a later get has got, tokens before others; where there is none, the first.
#[derive(Clone, Copy)]
pub struct Waiting {
    /// The opening tokens: the number of the first, from 0, and how many they are.
    pub tokens: Failures,
    /// The others: the position at which the first ended with Done, and how many they are.
    pub puts: Failures,
    /// The number of the one that is told, where that is an opening token.
    pub token: Option<usize>,
    /// Where it is another, the position at which it ended with Done.
    pub put: Option<usize>,
    /// The position of the Got that names it, if one does.
    pub got: Option<usize>,
}

/// Which of the puts that wait are sought.
#[derive(Clone, Copy)]
pub(crate) enum Sought {
    Every,
    /// Those that a later get has got.
    GotLater,
}

// Whether the put isn't sought: a get that started before position e has got it, or where it is to
// be got later, none has.
fn is_left_out(sought: Sought, tables: &Tables, events: &[Event], name: PutName, e: usize) -> bool
    requires { AreOfLawful events.now tables.now }
    ensures { IsTrue result ↔ IsLeftOut sought events.now e name }
{
    match tables.get_of(events, name) {
        Some(start) => start < e,
        None => match sought {
            Sought::Every => false,
            Sought::GotLater => true,
        },
    }
}

// So of the opening token of this number, if it stands in the queue.
fn is_token_left_out(
    sought: Sought,
    tables: &Tables,
    opening: &[Bytes],
    events: &[Event],
    queue: u32,
    e: usize,
    number: usize,
) -> bool
    requires known { AreOfLawful events.now tables.now }
    requires within { number < length opening.now }
    ensures { IsTrue result ↔ IsTokenLeftOut sought opening.now events.now queue e number }
{
    if queue != 0 {
        return true;
    }
    if number > u32::MAX as usize {
        return true;
    }
    let number = number as u32;
    is_left_out(sought, tables, events, PutName::Opening { number }, e)
}

// So of the put of the queue that ends with Done at position d, if one does.
fn is_put_left_out(
    sought: Sought,
    tables: &Tables,
    events: &[Event],
    queue: u32,
    e: usize,
    d: usize,
) -> bool
    requires { HasEvent events.now tables.now d }
    ensures { (m : ℕ) → d < m → (IsTrue result ↔ IsPutLeftOut sought events.now queue m e d) }
{
    match tables.done_put(events, queue, d) {
        Some(name) => is_left_out(sought, tables, events, name, e),
        None => true,
    }
}

// The opening tokens that wait in the queue at position e and are sought.
fn waiting_tokens(
    sought: Sought,
    tables: &Tables,
    opening: &[Bytes],
    events: &[Event],
    queue: u32,
    e: usize,
) -> Failures
    requires { AreOfLawful events.now tables.now }
    ensures failures { AreFailures (IsTokenLeftOut sought opening.now events.now queue e) result }
    ensures few { result.count ≤ length opening.now }
{
    let mut failures = Failures::none();
    for number in 0..opening.len() {
        failures = failures.with(
            number,
            is_token_left_out(sought, tables, opening, events, queue, e, number),
        );
    }
    failures
}

// The puts of the queue that were finished at moment m, wait at position e, and are sought.
fn waiting_puts(
    sought: Sought,
    tables: &Tables,
    events: &[Event],
    queue: u32,
    m: usize,
    e: usize,
) -> Failures
    requires known { AreOfLawful events.now tables.now }
    requires within { m ≤ length events.now }
    ensures failures { AreFailures (IsPutLeftOut sought events.now queue m e) result }
    ensures within { IfSome result.first (λ d. d < length events.now) }
    ensures few { result.count ≤ length events.now }
{
    let mut failures = Failures::none();
    for d in 0..m {
        failures = failures.with(d, is_put_left_out(sought, tables, events, queue, e, d));
    }
    failures
}

// Which of those that wait is told, by the first that are got later and the first at all.
fn told_of(
    late_token: Option<usize>,
    late_put: Option<usize>,
    token: Option<usize>,
    put: Option<usize>,
) -> (Option<usize>, Option<usize>)
    ensures { result ≡ told_of late_token late_put token put }
{
    match (late_token, late_put) {
        (Some(number), _) => (Some(number), None),
        (None, Some(d)) => (None, Some(d)),
        (None, None) => (token, put),
    }
}

// The position of the first Got that names the one that is told.
fn got_of_told(
    tables: &Tables,
    events: &[Event],
    queue: u32,
    token: Option<usize>,
    put: Option<usize>,
) -> Option<usize>
    requires known { AreOfLawful events.now tables.now }
    requires token { IfSome token (λ number. number < 2 ^ 32) }
    requires put { IfSome put (λ d. d < length events.now) }
    ensures got { (name : ThePutName) → IsToldPut events.now queue token put name
        → MatchOption result (¬ IsGot events.now name) (IsFirstNamed events.now name) }
    ensures within { IfSome result (λ d. d < length events.now) }
{
    match (token, put) {
        (Some(number), _) => {
            let number = number as u32;
            tables.first_named(events, PutName::Opening { number })
        }
        (None, Some(d)) => {
            let name = tables.done_put(events, queue, d)?;
            tables.first_named(events, name)
        }
        (None, None) => None,
    }
}

/// The puts of the queue that were finished at moment m and that no get which started before
/// position e has got.
pub(crate) fn find_waiting(
    tables: &Tables,
    opening: &[Bytes],
    events: &[Event],
    queue: u32,
    m: usize,
    e: usize,
) -> Waiting
    requires known { AreOfLawful events.now tables.now }
    requires within { m ≤ length events.now }
    ensures waiting { AreWaiting opening.now events.now queue m e result }
    ensures within { IsToldWithin (length events.now) result }
{
    let tokens = waiting_tokens(Sought::Every, tables, opening, events, queue, e);
    let puts = waiting_puts(Sought::Every, tables, events, queue, m, e);
    let late_tokens = waiting_tokens(Sought::GotLater, tables, opening, events, queue, e);
    let late_puts = waiting_puts(Sought::GotLater, tables, events, queue, m, e);
    let told = told_of(late_tokens.first, late_puts.first, tokens.first, puts.first);
    let got = got_of_told(tables, events, queue, told.0, told.1);
    Waiting {
        tokens,
        puts,
        token: told.0,
        put: told.1,
        got,
    }
}
