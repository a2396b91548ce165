//! Facts about the plain tree.

ghost use Rattle.std.specs.Prelude.{◌≤◌};
ghost use Rattle.pb_tree.specs.Measure.{stmts_height, stmts_nodes};
ghost use Rattle.pb_tree.specs.Syntax.{StmtsSyntax};

/// A list of statements is no higher than it has nodes.
pub fn height_within_nodes()
    ensures { (ss : StmtsSyntax) → stmts_height ss ≤ stmts_nodes ss }
{}
