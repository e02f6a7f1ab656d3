// What a data sheet says of a chip, within the limits of a profile or not.

/// The rate of the system count as a share of the crystal's.
#[derive(Clone, Copy)]
pub enum Ratio {
    FourTenths,
    Half,
}

/// The words that a chip's registers hold after a reset; all others hold 0.
#[derive(Clone, Copy)]
pub struct ResetWords {
    pub config: u32,
    pub wdtconfig0: u32,
    pub wdtconfig1: u32,
    pub conf: u32,
}

#[derive(Clone, Copy)]
pub struct Chip {
    /// the clock of the group timers and the watchdog, in Hz
    pub clock: u32,
    /// the crystal that drives the system timer, in Hz
    pub crystal: u32,
    pub ratio: Ratio,
    /// how many group timers there are; whoever gives another number than 1 or 2 gets no profile
    pub timers: u8,
    /// a timer listens by LEVEL_INT_EN of its CONFIG, and not by INT_ENA
    pub level: bool,
    /// the watchdog takes its settings over at a confirming bit
    pub confirm: bool,
    /// a timeout also restarts the prescaler's own count
    pub divcnt: bool,
    pub reset: ResetWords,
}
