//! What the readers of texts share, and the reader of the inputs: the text that gives the sources, a flow's nodes of the kind
//! `input`, their batches.
#![tactic(auto)]

mod batches;
mod fault;
mod inputs;
mod line;
mod numeral;
mod record;
mod refusal;
mod sources;
mod span;
mod spelling;
mod text;

pub use batches::Batches;
pub use fault::ReadFault;
pub use inputs::{INPUTS_LIMIT, one_answer, read_batches};
pub use line::{Line, Lines, Place};
pub use numeral::Number;
pub use refusal::{Code, Refusal};
pub use sources::SourceNames;
pub use span::{Span, Spans};
pub use spelling::{is_name, number};
pub use text::{line_at, lines};
