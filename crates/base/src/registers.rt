// The names of the registers that anybody may reach.

/// A register of one group timer, in the order of their places.
#[derive(Clone, Copy)]
pub enum TimerRegister {
    Config,
    Lo,
    Hi,
    Update,
    AlarmLo,
    AlarmHi,
    LoadLo,
    LoadHi,
    Load,
}

/// A register that the group timers share, and VALID, our own; with its place.
#[derive(Clone, Copy)]
pub enum GroupRegister {
    IntEna = 26,
    IntRaw = 27,
    IntClr = 28,
    Valid = 29,
}

/// A register of the system timer that its alarms share, with its place.
#[derive(Clone, Copy)]
pub enum SystemRegister {
    Conf = 30,
    Unit0Hi = 31,
    Unit0Lo = 32,
    Unit0Op = 33,
    IntEna = 46,
    IntRaw = 47,
    IntClr = 48,
}

/// A register of one alarm.
#[derive(Clone, Copy)]
pub enum AlarmRegister {
    TargetHi,
    TargetLo,
    TargetConf,
    CompLoad,
}

/// A register of the watchdog, with its place. They are protected: only the holder of an open protection puts there.
#[derive(Clone, Copy)]
pub enum WatchdogRegister {
    Config0 = 18,
    Config1 = 19,
    Config2 = 20,
    Config3 = 21,
    Config4 = 22,
    Config5 = 23,
    Feed = 24,
}
