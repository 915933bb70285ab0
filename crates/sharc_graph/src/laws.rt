//! Laws of the least assignment. A proof above has them where its function calls this.

ghost use Rattle.sharc_graph.specs.FlowLaws.{FlowLaws};

/// The inferred positions have all that the roots, the written modes and the links ask for, and are among any others
/// that have it; equal positions agree; and what is found shows them.
pub fn flow_laws()
    ensures { FlowLaws }
{}
