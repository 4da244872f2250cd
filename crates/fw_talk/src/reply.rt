//! What a talk replies.

/// Why no session started over records that were kept.
#[derive(Clone, Copy)]
pub enum Unstarted {
    /// One that they need is not among them.
    Missing,
    /// One of them spells no root, no batch, or no write.
    Damaged,
    /// They are those of a session over the text of another flow.
    Foreign,
}

/// What a talk replies to a call.
#[derive(Clone, Copy)]
pub enum Reply {
    /// It is done; behind a line its answer is there.
    Answered,
    /// There is no session: the text of the flow was refused, and its refusal is the answer.
    FlowRefused,
    /// Memory was refused, now or earlier: there is no answer.
    NoMemory,
    /// There is no session to answer a line: records are told. Or none are told: there is a session.
    NoSession,
    /// There is no session: none started over the records that were told.
    Unstarted(Unstarted),
}
