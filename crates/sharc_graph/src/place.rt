//! Positions and links.

ghost use Rattle.std.specs.Prelude.{◌≡◌};
ghost use Rattle.sharc_graph.specs.Flow.{node_of, leads};

use crate::graph::{Edge, Node};

/// What is known of a position before the inference.
#[derive(Clone, Copy)]
pub enum PositionKind {
    /// No mode is written, and it is a root.
    Root,
    /// No mode is written, and it is no root.
    Unwritten,
    /// It is written dynamic, or a field's target that is dynamic.
    Dynamic,
    /// It is written private.
    Private,
    /// It has another written mode.
    Other,
}

/// An edge between positions.
#[derive(Clone, Copy)]
pub struct Link {
    pub edge: Edge,
    /// Whether it leads to the position directly below.
    pub below: bool,
}

impl PositionKind {
    /// What it is to the paths.
    pub(crate) fn node(self) -> Node
        ensures { result ≡ node_of self }
    {
        match self {
            PositionKind::Root => Node {
                source: true,
                free: true,
            },
            PositionKind::Unwritten => Node {
                source: false,
                free: true,
            },
            PositionKind::Dynamic | PositionKind::Other => Node {
                source: true,
                free: false,
            },
            PositionKind::Private => Node {
                source: false,
                free: false,
            },
        }
    }

    /// Whether a path may go on from it by such a link.
    pub(crate) fn leads(self, link: &Link) -> bool
        ensures { result ≡ leads self link.now.below }
    {
        match self {
            PositionKind::Root | PositionKind::Unwritten | PositionKind::Dynamic => true,
            PositionKind::Private => false,
            PositionKind::Other => link.below,
        }
    }
}
