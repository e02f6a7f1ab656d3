// The registers by the indices of their places.
ghost use Rattle.std.specs.Prelude.{◌≡◌, ◌+◌, ◌<◌, ◌≤◌, Ok, Err};
ghost use Rattle.base.specs.Numbers.{alarm_number};
ghost use Rattle.block.specs.Places.{timer_offset, group_place, system_place, alarm_place};
ghost use Rattle.vectors.specs.Registers.{register_place, Nameless};

use base::numbers::{AlarmNumber, TimerNumber};
use base::registers::{AlarmRegister, GroupRegister, SystemRegister, TimerRegister};
use block::place::Place;

/// A register that is not the watchdog's.
#[derive(Clone, Copy)]
pub enum Register {
    OfTimer(TimerNumber, TimerRegister),
    OfGroup(GroupRegister),
    OfSystem(SystemRegister),
    OfAlarm(AlarmNumber, AlarmRegister),
}

/// The place with the index is the watchdog's, or there is none.
#[derive(Clone, Copy)]
pub struct NoRegister;

// Back by matches: the enums lie in a crate that has no use for it.
fn timer_register(offset: u64) -> Result<TimerRegister, NoRegister>
    ensures { elim result [ Ok x ↦ timer_offset x ≡ offset | Err _ ↦ 9 ≤ offset ] }
{
    Ok(match offset {
        0 => TimerRegister::Config,
        1 => TimerRegister::Lo,
        2 => TimerRegister::Hi,
        3 => TimerRegister::Update,
        4 => TimerRegister::AlarmLo,
        5 => TimerRegister::AlarmHi,
        6 => TimerRegister::LoadLo,
        7 => TimerRegister::LoadHi,
        8 => TimerRegister::Load,
        _ => return Err(NoRegister),
    })
}

fn group_register(index: u64) -> Result<GroupRegister, NoRegister>
    ensures { elim result [ Ok x ↦ group_place x ≡ index | Err _ ↦ (26 ≤ index → index < 30 → ⊥) ] }
{
    Ok(match index {
        26 => GroupRegister::IntEna,
        27 => GroupRegister::IntRaw,
        28 => GroupRegister::IntClr,
        29 => GroupRegister::Valid,
        _ => return Err(NoRegister),
    })
}

fn system_register(index: u64) -> Result<SystemRegister, NoRegister>
    ensures { elim result [ Ok x ↦ system_place x ≡ index | Err _ ↦ (30 ≤ index → index < 34 → ⊥) × (46 ≤ index → index < 49 → ⊥) ] }
{
    Ok(match index {
        30 => SystemRegister::Conf,
        31 => SystemRegister::Unit0Hi,
        32 => SystemRegister::Unit0Lo,
        33 => SystemRegister::Unit0Op,
        46 => SystemRegister::IntEna,
        47 => SystemRegister::IntRaw,
        48 => SystemRegister::IntClr,
        _ => return Err(NoRegister),
    })
}

fn alarm_number(index: u64) -> Result<AlarmNumber, NoRegister>
    ensures { elim result [ Ok x ↦ alarm_number x ≡ index | Err _ ↦ 3 ≤ index ] }
{
    Ok(match index {
        0 => AlarmNumber::Zero,
        1 => AlarmNumber::One,
        2 => AlarmNumber::Two,
        _ => return Err(NoRegister),
    })
}

fn alarm_register(index: u64) -> Result<Register, NoRegister>
    ensures { elim result [ Ok x ↦ register_place x ≡ index | Err _ ↦ (34 ≤ index → index < 46 → ⊥) ] }
{
    let (channel, register) = match index {
        34 | 36 | 38 => ((index - 34) / 2, AlarmRegister::TargetHi),
        35 | 37 | 39 => ((index - 35) / 2, AlarmRegister::TargetLo),
        40..=42 => (index - 40, AlarmRegister::TargetConf),
        43..=45 => (index - 43, AlarmRegister::CompLoad),
        _ => return Err(NoRegister),
    };
    Ok(Register::OfAlarm(alarm_number(channel)?, register))
}

/// The register whose place has this index.
impl TryFrom<u64> for Register {
    type Error = NoRegister;

    ghost try_from_gives = { λ index result. elim result [ Ok x ↦ register_place x ≡ index | Err _ ↦ Nameless index ] };

    fn try_from(index: u64) -> Result<Register, NoRegister> {
        Ok(match index {
            0..=8 => Register::OfTimer(TimerNumber::Zero, timer_register(index)?),
            9..=17 => Register::OfTimer(TimerNumber::One, timer_register(index - 9)?),
            26..=29 => Register::OfGroup(group_register(index)?),
            34..=45 => alarm_register(index)?,
            _ => Register::OfSystem(system_register(index)?),
        })
    }
}

/// Where the register is.
impl From<Register> for Place {
    ghost from_gives = { λ register place. place.index ≡ register_place register };

    fn from(register: Register) -> Place {
        match register {
            Register::OfTimer(number, register) => Place::timer(number, register),
            Register::OfGroup(register) => Place::from(register),
            Register::OfSystem(register) => Place::from(register),
            Register::OfAlarm(number, register) => Place::alarm(number, register),
        }
    }
}
