/// What a token of the structure block is.
#[derive(Clone, Copy, Debug, PartialEq, Eq)]
pub(crate) enum TokenKind {
    /// FDT_BEGIN_NODE
    BeginNode,
    /// FDT_END_NODE
    EndNode,
    /// FDT_PROP
    Property,
    /// FDT_NOP
    Nop,
    /// FDT_END
    End,
}
