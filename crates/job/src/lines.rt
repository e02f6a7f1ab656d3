// The lines of a job.
use base::numbers::{AlarmNumber, TimerNumber};
use driver::call::Call;
use jobs::bench::Step;
use time::Duration;

/// The line is no call, no remark and not blank.
#[derive(Clone, Copy)]
pub struct BadLine;

// A duration in microseconds.
fn read_duration(word: &str) -> Option<Duration> {
    word.parse().ok().map(Duration::from_micros)
}

// A call by its name and its argument.
fn read_call(name: &str, argument: Option<&str>) -> Option<Call> {
    match (name, argument) {
        ("schedule", Some(word)) => Some(Call::Schedule(read_duration(word)?)),
        ("delay_nanos", Some(word)) => Some(Call::DelayNanos(word.parse().ok()?)),
        ("finish", None) => Some(Call::Finish),
        ("stop", None) => Some(Call::Stop),
        ("start", Some(word)) => Some(Call::Start(read_duration(word)?)),
        ("wait", None) => Some(Call::Wait),
        ("cancel", None) => Some(Call::Cancel),
        ("clear_interrupt", None) => Some(Call::ClearInterrupt),
        ("listen", Some("on")) => Some(Call::Listen(true)),
        ("listen", Some("off")) => Some(Call::Listen(false)),
        _ => None,
    }
}

// A part, a call and its argument, each set off by blanks.
fn read_step(line: &str) -> Option<Step> {
    let mut words = line.split_ascii_whitespace();
    // All words first: a line with one too many is refused before a number in it is read.
    let (part, name, argument, None) = (words.next()?, words.next()?, words.next(), words.next())
    else {
        return None;
    };
    let call = read_call(name, argument)?;
    match part {
        "timer0" => Some(Step::Timer(TimerNumber::Zero, call)),
        "timer1" => Some(Step::Timer(TimerNumber::One, call)),
        "alarm0" => Some(Step::Alarm(AlarmNumber::Zero, call)),
        "alarm1" => Some(Step::Alarm(AlarmNumber::One, call)),
        "alarm2" => Some(Step::Alarm(AlarmNumber::Two, call)),
        _ => None,
    }
}

/// The step that a line asks for; none where it is blank, or a remark behind `#`.
pub fn read_line(line: &str) -> Result<Option<Step>, BadLine> {
    let text = line.trim();
    if text.is_empty() || text.starts_with('#') {
        return Ok(None);
    }
    read_step(text).map(Some).ok_or(BadLine)
}
