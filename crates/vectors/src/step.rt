// The lines of the vectors.
use crate::call::{Call, KindCall, Request};
use crate::fields::{flag, number};
use crate::register::Register;
use crate::tally::Departure;
use base::chip::{Chip, Ratio, ResetWords};
use base::numbers::{AlarmNumber, TimerNumber};
use driver::call::Call as DriverCall;
use time::Duration;
use timer::part::Part;

/// What a call is to reply.
#[derive(Clone, Copy)]
pub enum Reply<'a> {
    /// what the crate replied
    Alike(&'a str),
    /// what the crate replied, and what the port does in its place
    Departs(Departure, &'a str, &'a str),
}

/// What one line asks for.
#[derive(Clone, Copy)]
pub enum Step<'a> {
    /// a new block of the chip
    NewBlock(Chip),
    /// a change that the hardware makes
    SetWord(Register, u32),
    MakeCall(Request, Reply<'a>),
}

/// The step of a line, or none where the line has none of the forms.
pub fn read_step(line: &str) -> Option<Step<'_>> {
    let (first, rest) = line.split_once(' ')?;
    match first {
        "profile" => Some(Step::NewBlock(read_chip(rest)?)),
        "set" => read_set(rest),
        "departs" => read_departure(rest),
        _ => read_alike(line),
    }
}

fn read_set(text: &str) -> Option<Step<'_>> {
    let (index, word) = text.split_once(' ')?;
    Some(Step::SetWord(number(index)?, number(word)?))
}

fn read_alike(line: &str) -> Option<Step<'_>> {
    let (request, theirs) = line.split_once(" -> ")?;
    Some(Step::MakeCall(read_request(request)?, Reply::Alike(theirs)))
}

fn read_departure(text: &str) -> Option<Step<'_>> {
    let (name, line) = text.split_once(' ')?;
    let departure = name.parse().ok()?;
    let (request, replies) = line.split_once(" -> ")?;
    let (theirs, ours) = replies.split_once(" => ")?;
    let wanted = Reply::Departs(departure, theirs, ours);
    Some(Step::MakeCall(read_request(request)?, wanted))
}

// A call's name, its part and its argument, if it has one.
fn read_request(text: &str) -> Option<Request> {
    let mut words = text.splitn(3, ' ');
    let name = words.next()?;
    Some(Request {
        part: read_part(words.next()?)?,
        call: read_call(name, words.next())?,
    })
}

fn read_part(word: &str) -> Option<Part> {
    match word {
        "t0" => Some(Part::Timer(TimerNumber::Zero)),
        "t1" => Some(Part::Timer(TimerNumber::One)),
        "a0" => Some(Part::Alarm(AlarmNumber::Zero)),
        "a1" => Some(Part::Alarm(AlarmNumber::One)),
        "a2" => Some(Part::Alarm(AlarmNumber::Two)),
        _ => None,
    }
}

fn micros(word: &str) -> Option<Duration> {
    number(word).map(Duration::from_micros)
}

fn read_call(name: &str, argument: Option<&str>) -> Option<Call> {
    let call = match (name, argument) {
        ("schedule", Some(word)) => Call::Driver(DriverCall::Schedule(micros(word)?)),
        ("delay_nanos", Some(word)) => Call::Driver(DriverCall::DelayNanos(number(word)?)),
        ("stop", None) => Call::Driver(DriverCall::Stop),
        ("driver_listen", Some(word)) => Call::Driver(DriverCall::Listen(flag(word)?)),
        ("start", Some(word)) => Call::Driver(DriverCall::Start(micros(word)?)),
        ("wait", None) => Call::Driver(DriverCall::Wait),
        ("cancel", None) => Call::Driver(DriverCall::Cancel),
        ("kind_start", None) => Call::Kind(KindCall::Start),
        ("kind_stop", None) => Call::Kind(KindCall::Stop),
        ("reset", None) => Call::Kind(KindCall::Reset),
        ("is_running", None) => Call::Kind(KindCall::IsRunning),
        ("now", None) => Call::Kind(KindCall::Now),
        ("load_value", Some(word)) => Call::Kind(KindCall::LoadValue(micros(word)?)),
        ("enable_auto_reload", Some(word)) => Call::Kind(KindCall::EnableAutoReload(flag(word)?)),
        ("listen", Some(word)) => Call::Kind(KindCall::Listen(flag(word)?)),
        ("clear_interrupt", None) => Call::Kind(KindCall::ClearInterrupt),
        ("is_interrupt_set", None) => Call::Kind(KindCall::IsInterruptSet),
        _ => return None,
    };
    Some(call)
}

fn read_ratio(word: &str) -> Option<Ratio> {
    match word {
        "4/10" => Some(Ratio::FourTenths),
        "1/2" => Some(Ratio::Half),
        _ => None,
    }
}

// The figures in the order of the line.
fn read_chip(text: &str) -> Option<Chip> {
    let mut words = text.split(' ');
    Some(Chip {
        level: flag(words.next()?)?,
        confirm: flag(words.next()?)?,
        divcnt: flag(words.next()?)?,
        ratio: read_ratio(words.next()?)?,
        clock: number(words.next()?)?,
        crystal: number(words.next()?)?,
        timers: number(words.next()?)?,
        reset: ResetWords {
            config: number(words.next()?)?,
            wdtconfig0: number(words.next()?)?,
            wdtconfig1: number(words.next()?)?,
            conf: number(words.next()?)?,
        },
    })
}
