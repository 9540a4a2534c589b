// A node of a table in walk order, with all that stands below it.
ghost use Rattle.std.specs.Prelude.{true, ◌≡◌};
ghost use Rattle.format.specs.Format.{depth_limit};
ghost use Rattle.walk_order.specs.Walk.{walks};
ghost use Rattle.tree_write.specs.Span.{Span};

use super::Table;

// The table is in walk order, and what stands below the node ends before `end`.
#[derive(Clone, Copy)]
pub struct Folder<'a> {
    pub table: Table<'a>,
    pub node: usize,
    pub end: usize,
    ghost walk: { walks depth_limit table.nodes.now ≡ true },
    ghost span: { Span table.nodes.now node end },
}
