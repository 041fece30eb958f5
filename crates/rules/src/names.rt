// The bits of the three words and of the flags, and the numbers of modes, positions, commands, ends and outputs, by their names: rules 1.3
// to 1.7, 2.1 and 2.2.

/// Bits of the input word: rule 1.5. Those of the commands are in `status::command`.
pub mod input {
    pub const LOCAL_MODE: u32 = 1;

    pub const ON_SWITCH: u32 = 4;

    pub const OFF_SWITCH: u32 = 5;

    pub const NO_SUPPLY: u32 = 6;

    pub const REPAIR: u32 = 9;

    pub const FORBID_ON: u32 = 14;

    pub const FORBID_OFF: u32 = 15;

    pub const RESET: u32 = 16;
}

/// Bits of OPS_1: rule 1.3.
pub mod ops1 {
    pub const BOTH_SWITCHES: u32 = 0;

    pub const SUPPLY_HEEDED: u32 = 1;

    pub const LOCAL_THROUGH_BLOCK: u32 = 2;

    pub const FORBID_OFF_BARS_ALL: u32 = 4;

    pub const FORBID_ON_BARS_ALL: u32 = 5;

    pub const TWO_OUTPUTS: u32 = 6;

    pub const CONFIRMED_DROPS_PULSE: u32 = 7;

    pub const LZ_ON_TO_WORK: u32 = 8;

    pub const LZ_OFF_TO_WORK: u32 = 9;

    pub const KO_ON_TO_WORK: u32 = 10;

    pub const KO_OFF_TO_WORK: u32 = 11;

    pub const SMA_RAISES: u32 = 12;

    pub const RESERVE_WITH_FAULT: u32 = 13;

    pub const RESERVE_WITHOUT_SUPPLY: u32 = 14;

    pub const KO_OFF_ACKNOWLEDGES: u32 = 15;
}

/// Bits of OPS_2: rule 1.4.
pub mod ops2 {
    pub const KO_ON_ACKNOWLEDGES: u32 = 0;

    pub const FAULTS_IN_LOCAL_MODE: u32 = 1;

    pub const PRETENDS: u32 = 2;

    pub const PRETENDS_FIXED: u32 = 3;

    pub const PRETENDS_ON: u32 = 4;
}

/// Flags: rule 2.2. That of an overdue command c is `OVERDUE + c`.
pub mod flag {
    pub const NO_SUPPLY: u32 = 0;

    pub const SWITCH_FAULT: u32 = 1;

    pub const UNSANCTIONED_ON: u32 = 2;

    pub const UNSANCTIONED_OFF: u32 = 3;

    pub const ON_BY_LZ: u32 = 4;

    pub const OFF_BY_LZ: u32 = 5;

    pub const OFF_BY_SMA: u32 = 6;

    pub const OVERDUE: u32 = 6;

    pub const BOTH_CLOSED: u32 = 14;
}

/// Modes: rule 2.1.
pub mod mode {
    pub const REPAIR: u32 = 0;

    pub const RESERVE: u32 = 1;

    pub const WORK: u32 = 2;
}

/// Positions, and directions of commands: rules 1.7 and 2.1.
pub mod position {
    pub const UNSURE: u32 = 0;

    pub const OFF: u32 = 1;

    pub const ON: u32 = 2;
}

/// Commands: rule 1.7.
pub mod command {
    pub const NONE: u32 = 0;

    pub const SMA_OFF: u32 = 1;

    pub const LZ_OFF: u32 = 2;

    pub const LZ_ON: u32 = 3;

    pub const MU_OFF: u32 = 4;

    pub const MU_ON: u32 = 5;

    pub const KO_OFF: u32 = 6;

    pub const KO_ON: u32 = 7;
}

/// Ends of a command: rule 2.1.
pub mod end {
    pub const NONE: u32 = 0;

    pub const CONFIRMED: u32 = 1;

    pub const DISPLACED: u32 = 2;

    pub const OVERDUE: u32 = 3;
}

/// Outputs: rule 2.1.
pub mod output {
    pub const NONE: u32 = 0;

    pub const ON: u32 = 1;

    pub const OFF: u32 = 2;
}
