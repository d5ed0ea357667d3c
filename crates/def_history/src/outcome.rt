use boss_model::Answer;

/// What became of a command that was to be kept.
#[derive(Debug, Drop)]
pub enum Outcome {
    /// It was done, and what it changed is kept.
    Done { answer: Answer },
    /// The disk failed in an earlier call; nothing was done.
    Stopped,
    /// The disk failed in this call: what the command changed is kept or not, and a later opening shows which.
    DiskFault,
    /// No memory was to be had; nothing was done.
    NoMemory,
    /// The rules do not allow this write of a submit, from 0: this rule, from 1, decided it, or 0 where no rule is for it. Nothing
    /// was looked at and nothing was done.
    Denied { index: u32, rule: u32 },
}

/// What became of several commands that were to be kept together.
#[derive(Debug, Drop)]
pub struct Outcomes {
    /// How many were done, from the first on.
    pub done: u32,
    /// Why no more were done; none where all were.
    pub rest: Option<Outcome>,
}
