// Reads a job from standard input, a call to a line, makes its calls on a new recorder of the bench unit and prints what
// came of them. With a path as argument it writes the puts there, as a write list.
#![tactic(auto)]

mod lines;

use anyhow::{Context, bail};
use base::error::Error;
use base::profile::Profile;
use jobs::bench::{Bench, Step};
use lines::read_line;
use recorder::Recorder;
use setting::readout::settings;
use std::{env, fmt, fs, io};
use systimer::alarm::Alarm;
use timg::group_timer::GroupTimer;

// The longest write list that can be replayed.
const MOST_BYTES: usize = 65_536;

// What a step answered, and the number of its puts.
#[derive(Drop)]
struct Outcome {
    answer: Result<(), Error>,
    puts: u64,
}

impl fmt::Display for Outcome {
    fn fmt<W: fmt::Write>(&self, f: &mut fmt::Formatter<W>) -> fmt::Result {
        let puts = self.puts;
        match self.answer {
            Ok(()) => write!(f, "accepted, {puts} puts"),
            Err(error) => write!(f, "{error}, {puts} puts"),
        }
    }
}

// A new recorder of the bench unit, with its timers and alarms.
#[derive(Drop)]
struct Unit<'a> {
    bench: Bench<GroupTimer, Alarm>,
    recorder: Recorder<'a>,
}

impl<'a> Unit<'a> {
    fn new(list: &'a mut [u8]) -> Self {
        let (recorder, handles) = Recorder::new(Profile::bench(), list);
        Unit {
            bench: Bench::new(handles),
            recorder,
        }
    }

    fn perform(&mut self, step: Step) -> Outcome {
        let before = self.recorder.puts();
        let answer = self.bench.perform(&mut self.recorder, step);
        let puts = self.recorder.puts().saturating_sub(before);
        Outcome { answer, puts }
    }
}

// Runs the job over the list, prints each step with its outcome and the settings afterwards, and answers how many puts
// were made.
fn run(rt: &HostRuntime, text: &str, list: &mut [u8]) -> io::Result<u64> {
    let mut unit = Unit::new(list);
    for line in text.lines() {
        if let Ok(Some(step)) = read_line(line) {
            let outcome = unit.perform(step);
            println!(rt; "{}: {outcome}", line.trim())?;
        }
    }
    println!(rt; "{}", settings(&unit.recorder, unit.bench.origins()))?;
    Ok(unit.recorder.puts())
}

fn main(rt: HostRuntime) -> anyhow::Result<()> {
    let path = env::args(&rt)?.nth(1);
    let text = io::read_to_string(rt.alloc(), rt.stdin())?;
    // Nothing is run where a line can't be read.
    let bad = (1u64..)
        .zip(text.as_str().lines())
        .find(|(_, line)| read_line(line).is_err());
    if let Some((number, _)) = bad {
        println!(rt; "refused line {number}")?;
        bail!("a line can't be read");
    }
    let mut list = vec![in rt.alloc(); 0u8; MOST_BYTES]?;
    let puts = run(&rt, text.as_str(), list.as_mut_slice())?;
    if let Some(path) = path {
        let made = list
            .get(..puts.saturating_mul(8) as usize)
            .context("the job makes more puts than a write list holds")?;
        fs::write(&rt, path.as_str(), made)?;
    }
    Ok(())
}
