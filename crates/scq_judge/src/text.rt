//! A report as text.

ghost use Rattle.std.specs.Prelude.{◌≡◌, ◌<◌, ◌^◌, ◌++◌, codes, length, Some, IfOk, IfSome};
ghost use Rattle.std.specs.Prelude.{OnOk};
ghost use Rattle.scq_check.specs.Exports.{IsOriginWithin, AreWithin, IsToldWithin};
ghost use Rattle.scq_judge.specs.Exports.{told_by, beside_line, count_line, full_line, got_text};
ghost use Rattle.scq_judge.specs.Exports.{order_line, origin_line, origin_text, overtaker_text};
ghost use Rattle.scq_judge.specs.Exports.{put_text, report_lines, verdict_text, waiting_line};
ghost use Rattle.scq_judge.specs.Exports.{waiting_text, over_by, over_text, opening_line};
ghost use Rattle.scq_judge.specs.Exports.{count_lines, ending_lines, linearizable_line, tests_opening};
ghost use Rattle.scq_judge.specs.Exports.{unbroken_text};

use crate::counting::Counts;
use crate::judging::Report;
use crate::teller::Teller;
use crate::telling::{add_event_at, add_number, add_token, event_at};
use scq_check::{Failures, Origin, Waiting};
use scq_hist::{Event, Reply};
use scq_word::{Bytes, NoMemory};
use std::alloc::Global;

/// A report as text: a line for each aspect and one for each count, and one that tells whether the
/// history is linearizable. `NAME holds`, `NAME not tested`, or `NAME fails at EVENT, COUNT in
/// all`, and behind that what this event stands against.
pub(crate) fn report_text(
    alloc: Global,
    teller: Teller<'_>,
    report: &Report,
) -> Result<Bytes, NoMemory>
    requires within { AreWithin (length teller.events.now) report.now.breaches }
    requires full_within { IfSome report.now.full (λ full.
        IfSome full.first (λ e. e < length teller.events.now)) }
    ensures { IfOk result (λ text. text ≡ report_lines (told_by teller.entry) report.now) }
{
    let breaches = &report.breaches;
    let told = &breaches.counterparts;
    let gots = report.tests_gots();
    let refused = report.tests_refused();
    let mut text = Vec::new(alloc);
    add_origin(
        &mut text,
        b"fresh",
        teller,
        gots,
        &breaches.fresh,
        told.fresh,
    )?;
    add_beside(
        &mut text,
        b"once",
        teller,
        gots,
        &breaches.once,
        b"; named before at ",
        told.once,
    )?;
    add_order(
        &mut text,
        b"in order",
        teller,
        report.tests_order(),
        &breaches.in_order,
        told.in_order,
        told.overtaker,
    )?;
    add_waiting(
        &mut text,
        b"empty",
        teller,
        report.tests_empty(),
        &breaches.empty_right,
        told.empty_right,
    )?;
    add_beside(
        &mut text,
        b"refused never got",
        teller,
        refused,
        &breaches.accepted,
        b"; put refused at ",
        told.accepted,
    )?;
    add_full(&mut text, teller, refused, report.full)?;
    add_opening(&mut text, teller, report)?;
    add_counts(&mut text, report.counts)?;
    add_endings(&mut text, report)?;
    add_linearizable(&mut text, report.linearizable)?;
    Ok(Bytes::from(text))
}

// The line of an aspect whose first breach names a put.
fn add_origin(
    text: &mut Vec<u8>,
    name: &[u8],
    teller: Teller<'_>,
    tested: bool,
    failures: &Failures,
    origin: Option<Origin>,
) -> Result<(), NoMemory>
    requires first { IfSome failures.now.first (λ e. e < length teller.events.now) }
    requires origin { IfSome origin (IsOriginWithin (length teller.events.now)) }
    ensures { OnOk result (text.new.items ≡ text.old.items
        ++ origin_line name.now (told_by teller.entry) tested failures.now origin) }
{
    add_verdict(text, name, teller, tested, failures)?;
    add_put_of(text, teller, origin)?;
    text.extend_from_slice(b"\n")?;
    Ok(())
}

// Where the put that a Got names was put.
fn add_put_of(
    text: &mut Vec<u8>,
    teller: Teller<'_>,
    origin: Option<Origin>,
) -> Result<(), NoMemory>
    requires { IfSome origin (IsOriginWithin (length teller.events.now)) }
    ensures { OnOk result (text.new.items
        ≡ text.old.items ++ origin_text (told_by teller.entry) origin) }
{
    match origin {
        None => Ok(()),
        Some(Origin::Nobody) => {
            text.extend_from_slice(
                b"; names a put that nobody made: values have to be the recorder's",
            )?;
            Ok(())
        }
        Some(Origin::Token { number }) => {
            text.extend_from_slice(b"; names the opening at ")?;
            add_token(text, teller, number as usize)
        }
        Some(Origin::Start { position }) => {
            text.extend_from_slice(b"; names the put started at ")?;
            add_event_at(text, teller, position)
        }
    }
}

// The line on the room, where it is known.
fn add_full(
    text: &mut Vec<u8>,
    teller: Teller<'_>,
    tested: bool,
    full: Option<Failures>,
) -> Result<(), NoMemory>
    requires { IfSome full (λ full. IfSome full.first (λ e. e < length teller.events.now)) }
    ensures { OnOk result (text.new.items
        ≡ text.old.items ++ full_line (told_by teller.entry) tested full) }
{
    match full {
        None => Ok(()),
        Some(failures) => add_room(text, teller, tested, failures),
    }
}

// The same, where it is.
fn add_room(
    text: &mut Vec<u8>,
    teller: Teller<'_>,
    tested: bool,
    failures: Failures,
) -> Result<(), NoMemory>
    requires { IfSome failures.first (λ e. e < length teller.events.now) }
    ensures { OnOk result (text.new.items
        ≡ text.old.items ++ full_line (told_by teller.entry) tested (Some failures)) }
{
    add_verdict(text, b"full", teller, tested, &failures)?;
    add_over(text, teller, failures.first)?;
    text.extend_from_slice(b"\n")?;
    Ok(())
}

// That there is no room for the put that is answered Done at this position.
fn add_over(text: &mut Vec<u8>, teller: Teller<'_>, first: Option<usize>) -> Result<(), NoMemory>
    requires { IfSome first (λ e. e < length teller.events.now) }
    ensures { OnOk result (text.new.items
        ≡ text.old.items ++ over_text (told_by teller.entry) first) }
{
    match first {
        None => Ok(()),
        Some(e) => add_over_by(text, event_at(teller.events, e)),
    }
}

fn add_over_by(text: &mut Vec<u8>, event: &Event) -> Result<(), NoMemory>
    ensures { OnOk result (text.new.items ≡ text.old.items ++ over_by (Some event.now)) }
{
    match event {
        Event::End {
            reply: Reply::Done,
            ..
        } => {
            text.extend_from_slice(b"; there is no room for it")?;
            Ok(())
        }
        _ => Ok(()),
    }
}

// The line on opening tokens, where there are two or more.
fn add_opening(text: &mut Vec<u8>, teller: Teller<'_>, report: &Report) -> Result<(), NoMemory>
    requires { IfSome report.now.breaches.opening.first (λ e. e < length teller.events.now) }
    ensures { OnOk result (text.new.items
        ≡ text.old.items ++ opening_line (told_by teller.entry) (tests_opening report.now)
        report.now.tokens report.now.breaches.opening) }
{
    if report.tokens > 1 {
        add_verdict(
            text,
            b"opening in order",
            teller,
            report.tests_opening(),
            &report.breaches.opening,
        )?;
        text.extend_from_slice(b"\n")?;
    }
    Ok(())
}

// The line of an aspect whose first breach stands against an event.
fn add_beside(
    text: &mut Vec<u8>,
    name: &[u8],
    teller: Teller<'_>,
    tested: bool,
    failures: &Failures,
    words: &[u8],
    event: Option<usize>,
) -> Result<(), NoMemory>
    requires first { IfSome failures.now.first (λ e. e < length teller.events.now) }
    requires event { IfSome event (λ e. e < length teller.events.now) }
    ensures { OnOk result (text.new.items
        ≡ text.old.items
        ++ beside_line name.now (told_by teller.entry) tested failures.now words.now event) }
{
    add_verdict(text, name, teller, tested, failures)?;
    if let Some(at) = event {
        text.extend_from_slice(words)?;
        add_event_at(text, teller, at)?;
    }
    text.extend_from_slice(b"\n")?;
    Ok(())
}

// The line of an aspect whose first breach stands against puts that wait.
fn add_waiting(
    text: &mut Vec<u8>,
    name: &[u8],
    teller: Teller<'_>,
    tested: bool,
    failures: &Failures,
    waiting: Option<Waiting>,
) -> Result<(), NoMemory>
    requires first { IfSome failures.now.first (λ e. e < length teller.events.now) }
    requires waiting { IfSome waiting (IsToldWithin (length teller.events.now)) }
    ensures { OnOk result (text.new.items ≡ text.old.items
        ++ waiting_line name.now (told_by teller.entry) tested failures.now waiting) }
{
    add_verdict(text, name, teller, tested, failures)?;
    add_puts(text, teller, waiting)?;
    text.extend_from_slice(b"\n")?;
    Ok(())
}

// The line of an aspect whose first breach overtakes puts that wait.
fn add_order(
    text: &mut Vec<u8>,
    name: &[u8],
    teller: Teller<'_>,
    tested: bool,
    failures: &Failures,
    waiting: Option<Waiting>,
    overtaker: Option<Origin>,
) -> Result<(), NoMemory>
    requires first { IfSome failures.now.first (λ e. e < length teller.events.now) }
    requires waiting { IfSome waiting (IsToldWithin (length teller.events.now)) }
    requires overtaker { IfSome overtaker (IsOriginWithin (length teller.events.now)) }
    ensures { OnOk result (text.new.items
        ≡ text.old.items
        ++ order_line name.now (told_by teller.entry) tested failures.now waiting overtaker) }
{
    add_verdict(text, name, teller, tested, failures)?;
    add_puts(text, teller, waiting)?;
    add_overtaker(text, teller, overtaker)?;
    text.extend_from_slice(b"\n")?;
    Ok(())
}

// Where the put that has overtaken others was put.
fn add_overtaker(
    text: &mut Vec<u8>,
    teller: Teller<'_>,
    overtaker: Option<Origin>,
) -> Result<(), NoMemory>
    requires { IfSome overtaker (IsOriginWithin (length teller.events.now)) }
    ensures { OnOk result (text.new.items
        ≡ text.old.items ++ overtaker_text (told_by teller.entry) overtaker) }
{
    match overtaker {
        Some(Origin::Start { position }) => {
            text.extend_from_slice(b"; overtaken by the put started at ")?;
            add_event_at(text, teller, position)
        }
        _ => Ok(()),
    }
}

fn add_verdict(
    text: &mut Vec<u8>,
    name: &[u8],
    teller: Teller<'_>,
    tested: bool,
    failures: &Failures,
) -> Result<(), NoMemory>
    requires { IfSome failures.now.first (λ e. e < length teller.events.now) }
    ensures { OnOk result (text.new.items
        ≡ text.old.items ++ verdict_text name.now (told_by teller.entry) tested failures.now) }
{
    text.extend_from_slice(name)?;
    match failures.first {
        None => add_unbroken(text, tested),
        Some(e) => {
            text.extend_from_slice(b" fails at ")?;
            add_event_at(text, teller, e)?;
            text.extend_from_slice(b", ")?;
            add_number(text, failures.count as u64)?;
            text.extend_from_slice(b" in all")?;
            Ok(())
        }
    }
}

fn add_unbroken(text: &mut Vec<u8>, tested: bool) -> Result<(), NoMemory>
    ensures { OnOk result (text.new.items ≡ text.old.items ++ unbroken_text tested) }
{
    if tested {
        text.extend_from_slice(b" holds")?;
    } else {
        text.extend_from_slice(b" not tested")?;
    }
    Ok(())
}

// How many puts wait, and of the one that is told where it was put and where it is got.
fn add_puts(
    text: &mut Vec<u8>,
    teller: Teller<'_>,
    waiting: Option<Waiting>,
) -> Result<(), NoMemory>
    requires { IfSome waiting (IsToldWithin (length teller.events.now)) }
    ensures { OnOk result (text.new.items
        ≡ text.old.items ++ waiting_text (told_by teller.entry) waiting) }
{
    if let Some(told) = waiting {
        text.extend_from_slice(b"; ")?;
        add_number(text, told.tokens.count as u64 + told.puts.count as u64)?;
        text.extend_from_slice(b" waiting, one put at ")?;
        add_put(text, teller, told.token, told.put)?;
        add_got(text, teller, told.got)?;
    }
    Ok(())
}

fn add_got(text: &mut Vec<u8>, teller: Teller<'_>, got: Option<usize>) -> Result<(), NoMemory>
    requires { IfSome got (λ e. e < length teller.events.now) }
    ensures { OnOk result (text.new.items ≡ text.old.items ++ got_text (told_by teller.entry) got) }
{
    match got {
        None => {
            text.extend_from_slice(b", never got")?;
            Ok(())
        }
        Some(at) => {
            text.extend_from_slice(b", got at ")?;
            add_event_at(text, teller, at)
        }
    }
}

// Where the one that is told was put: the line of its opening token, or that of its End.
fn add_put(
    text: &mut Vec<u8>,
    teller: Teller<'_>,
    token: Option<usize>,
    put: Option<usize>,
) -> Result<(), NoMemory>
    requires token { IfSome token (λ number. number < 2 ^ 32) }
    requires put { IfSome put (λ d. d < length teller.events.now) }
    ensures { OnOk result (text.new.items
        ≡ text.old.items ++ put_text (told_by teller.entry) token put) }
{
    match (token, put) {
        (Some(number), _) => add_token(text, teller, number),
        (None, Some(d)) => add_event_at(text, teller, d),
        (None, None) => Ok(()),
    }
}

// The lines of the counts.
fn add_counts(text: &mut Vec<u8>, counts: Counts) -> Result<(), NoMemory>
    ensures { OnOk result (text.new.items ≡ text.old.items ++ count_lines counts) }
{
    add_count(text, b"events", counts.events)?;
    add_count(text, b"queues", counts.queues)?;
    add_count(text, b"seats", counts.seats)?;
    add_count(text, b"calls", counts.calls)?;
    add_count(text, b"overlapping", counts.overlapping)?;
    Ok(())
}

// The lines on how calls end.
fn add_endings(text: &mut Vec<u8>, report: &Report) -> Result<(), NoMemory>
    ensures { OnOk result (text.new.items ≡ text.old.items ++ ending_lines report.now) }
{
    let endings = report.breaches.endings;
    add_count(text, b"got", endings.got)?;
    add_count(text, b"nothing", endings.nothing)?;
    add_count(text, b"refused", endings.refused)?;
    add_count(text, b"spent", endings.spent)?;
    add_count(text, b"never ended", report.counts.never_ended)?;
    Ok(())
}

fn add_linearizable(text: &mut Vec<u8>, told: Option<bool>) -> Result<(), NoMemory>
    ensures { OnOk result (text.new.items ≡ text.old.items ++ linearizable_line told) }
{
    match told {
        Some(true) => text.extend_from_slice(b"linearizable yes\n")?,
        Some(false) => text.extend_from_slice(b"linearizable no\n")?,
        None => text.extend_from_slice(b"linearizable not told: calls never ended\n")?,
    }
    Ok(())
}

fn add_count(text: &mut Vec<u8>, name: &[u8], count: usize) -> Result<(), NoMemory>
    ensures { OnOk result (text.new.items ≡ text.old.items ++ count_line name.now count) }
{
    text.extend_from_slice(name)?;
    text.extend_from_slice(b" ")?;
    add_number(text, count as u64)?;
    text.extend_from_slice(b"\n")?;
    Ok(())
}
