use ctw_script::{Event, TrapCode};

/// An open block, loop, arm or body.
#[derive(Clone, Copy, Debug, PartialEq, Eq)]
pub struct Opened {
    /// How many operands stand below its own, those of outer labels and frames.
    pub height: usize,
    /// The place behind its `end`.
    pub after: usize,
    /// The place of its instruction.
    pub start: usize,
    /// Whether it has a result.
    pub has_result: bool,
    /// Whether a branch to it runs it again.
    pub is_loop: bool,
}

/// A running function.
#[derive(Clone, Copy, Debug, PartialEq, Eq)]
pub struct Caller {
    /// Its number in the store.
    pub func: u32,
    /// Where the function that called it goes on.
    pub back: usize,
    /// How many locals stand below its own.
    pub locals: usize,
    /// How many labels stand below its own.
    pub labels: usize,
}

/// A running call.
#[derive(Drop)]
pub struct Running {
    pub operands: Vec<u64>,
    pub locals: Vec<u64>,
    pub labels: Vec<Opened>,
    pub frames: Vec<Caller>,
    pub at: usize,
}

/// What a step did.
#[derive(Clone, Copy, Debug, PartialEq, Eq)]
pub enum Stepped {
    /// The call goes on.
    Went {
        /// What an onlooker sees.
        event: Option<Event>,
    },
    /// The call ended.
    Ended {
        /// Its result.
        value: Option<u64>,
        /// What an onlooker sees: a branch may end a call.
        event: Option<Event>,
    },
    /// The call trapped.
    Trapped {
        /// Why.
        code: TrapCode,
        /// What an onlooker sees.
        event: Option<Event>,
    },
}
