// The row that a map shows, with what stays the same from row to row.
use bankdef::Bankdefs;

// The banks, the nodes' kinds and operands, the first row's numbers, and the numbers and states of the row of the last pass.
#[derive(Clone, Copy)]
pub(crate) struct LastRow<'a> {
    pub(crate) banks: Bankdefs,
    pub(crate) kinds: &'a [u8],
    pub(crate) operands: &'a [u32],
    pub(crate) first: &'a [u32],
    pub(crate) numbers: &'a [u32],
    pub(crate) states: &'a [u8],
}
