//! What answers the rows of a file, by its ending.
use crate::domain::tell_domain;
use crate::{certificates, texts, values};
use fw_flow::Flow;
use row_words::{Families, Row, flow_of};
use std::alloc::{AllocError, Global};

/// What answers rows about flows, and about frontiers of a domain.
#[derive(Drop)]
pub struct FlowFamilies {
    /// Where what is told lies.
    pub alloc: Global,
}

impl Families for FlowFamilies {
    fn tell(&self, ending: &str, row: Row<'_>, told: &mut String) -> Result<(), AllocError> {
        if ending == "domains" {
            return tell_domain(self.alloc, row, told);
        }
        match flow_of(self.alloc, row.lines, told)? {
            Some(flow) => tell_of_flow(self.alloc, ending, &flow, row, told),
            None => Ok(()),
        }
    }
}

/// Tells the answers to the lines of a row about a flow.
fn tell_of_flow(
    alloc: Global,
    ending: &str,
    flow: &Flow,
    row: Row<'_>,
    told: &mut String,
) -> Result<(), AllocError> {
    match ending {
        "certificates" => certificates::tell(alloc, flow, row, told),
        "texts" => texts::tell(alloc, flow, row, told),
        _ => values::tell(alloc, flow, row, told),
    }
}
