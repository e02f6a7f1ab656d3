// The settings of a write list, and the verdict on two.
#![tactic(auto)]

ghost use Rattle.std.specs.Prelude.{◌≡◌, Ok, Err, IfOk};
ghost use Rattle.base.specs.Refusals.{outcome};
ghost use Rattle.block.specs.Replays.{replay_outcome};
ghost use Rattle.verdict.specs.Verdicts.{list_settings, Judged, Lists, Refuses, all_same};

use base::error::Error;
use base::profile::Profile;
use block::replay::replay;
use setting::kinds::{Origins, Settings};
use setting::readout::settings;
use simulated::SimulatedBlock;

#[cfg(test)]
mod tests;

/// For each part, whether two blocks set it the same; a part that neither has is the same.
#[derive(Clone, Copy)]
pub struct Verdict {
    pub timer0: bool,
    pub timer1: bool,
    pub alarm0: bool,
    pub alarm1: bool,
    pub alarm2: bool,
    pub watchdog: bool,
}

/// Which of two lists was refused, and why.
#[derive(Clone, Copy, PartialEq, Eq, Debug)]
pub enum RefusedList {
    First(Error),
    Second(Error),
}

/// What a write list sets on a new block of the profile, whose alarms' delays begin at 0; or the list's refusal.
pub fn settings_of_list(profile: Profile, list: &[u8]) -> Result<Settings, Error>
    ensures answer { outcome result ≡ replay_outcome list.now }
    ensures settings { IfOk result (λ s. s ≡ list_settings profile.chip list.now) }
{
    let (mut block, _) = SimulatedBlock::new(profile);
    replay(&mut block, list)?;
    Ok(settings(&block, Origins::default()))
}

/// Compares two blocks' settings, part by part.
pub fn judge(first: &Settings, second: &Settings) -> Verdict
    ensures { Judged first.now second.now result }
{
    Verdict {
        timer0: first.timer0 == second.timer0,
        timer1: first.timer1 == second.timer1,
        alarm0: first.alarm0 == second.alarm0,
        alarm1: first.alarm1 == second.alarm1,
        alarm2: first.alarm2 == second.alarm2,
        watchdog: first.watchdog == second.watchdog,
    }
}

/// The verdict on two write lists, each replayed on a new block of the profile; or the refusal of the first that is refused.
pub fn judge_lists(profile: Profile, first: &[u8], second: &[u8]) -> Result<Verdict, RefusedList>
    ensures { elim result [ Ok v ↦ Lists profile.chip first.now second.now v | Err e ↦ Refuses e first.now second.now ] }
{
    let ours = settings_of_list(profile, first).map_err(RefusedList::First)?;
    let theirs = settings_of_list(profile, second).map_err(RefusedList::Second)?;
    Ok(judge(&ours, &theirs))
}

impl Verdict {
    /// Whether every part is the same.
    pub fn same(&self) -> bool
        ensures { result ≡ all_same self.now }
    {
        self.timer0 && self.timer1 && self.alarm0 && self.alarm1 && self.alarm2 && self.watchdog
    }
}
