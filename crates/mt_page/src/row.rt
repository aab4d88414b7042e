//! A row of a page.
use mt_base::{Sequence, Text};

/// What stands at a name.
#[derive(Clone, Copy, Debug, PartialEq, Eq)]
pub enum RowKind {
    Object,
    Directory,
}

/// What a line of a page tells of a child of the directory.
#[derive(Debug, PartialEq, Eq, Drop)]
pub struct PageRow {
    /// Its name: a component, with which the path below the directory is within its limit.
    pub name: Text,
    pub kind: RowKind,
}

/// The rows of a page, in its order.
pub type PageRows = Sequence<PageRow>;
