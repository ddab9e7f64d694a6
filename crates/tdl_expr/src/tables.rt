ghost use Rattle.std.specs.Prelude.{◌≡◌, ◌⊎◌, ◌<◌, List, [], length, Err, Some, IfOk, IfErr, IfSome, OnErr};
ghost use Rattle.std.specs.List.{HoldsAt};
ghost use Rattle.tdl_expr.specs.Older.{TableGrowthLaws};
ghost use Rattle.tdl_expr.specs.Rows.{IsNode, IsRow, IsTable, tree_of, trees_of, tree_at, sum_links};
ghost use Rattle.tdl_expr.specs.Pushed.{IsPushed, overflow_of};
ghost use Rattle.tdl_expr.specs.Valid.{IsValid};

use crate::ids::NodeId;
use crate::nodes::Node;
use std::alloc::{AllocFailed, Global};
use std::marker::Model;
use tdl_control::NoMemory;
use thiserror::Error;

// How many rows a table has at most.
const MAX_ROWS: u32 = 2048;

// How many links it has at most.
const MAX_LINKS: u32 = 8192;

/// Why a node was not pushed. The table is as it was then.
#[derive(Clone, Copy, Debug, PartialEq, Eq, Error)]
pub enum PushFault {
    #[error("out of memory")]
    NoMemory,
    /// The table with the node would have more than 2,048 rows, or more than 8,192 links: these many.
    #[error("the table would have {rows} rows and {links} links")]
    TooLarge { rows: u32, links: u32 },
}

impl From<NoMemory> for PushFault {
    ghost use Rattle.std.specs.Prelude.{◌≡◌};
    ghost use Rattle.tdl_expr.specs.declared.tables.PushFault.TheVariants.{NoMemory};

    ghost from_gives = { λ _ fault. fault ≡ NoMemory };

    fn from(_error: NoMemory) -> PushFault {
        PushFault::NoMemory
    }
}

impl<T: Drop> From<AllocFailed<T>> for PushFault {
    ghost use Rattle.std.specs.Prelude.{◌≡◌};
    ghost use Rattle.tdl_expr.specs.declared.tables.PushFault.TheVariants.{NoMemory};

    ghost from_gives = { λ _ fault. fault ≡ NoMemory };

    fn from(_error: AllocFailed<T>) -> PushFault {
        PushFault::NoMemory
    }
}

/// Nodes in rows, each of whose children are earlier rows. A row stands for a tree, and a row that is
/// named twice for two copies of its tree. A link is one naming of a child by a node.
#[derive(Drop)]
pub struct Table {
    nodes: Vec<Node>,
    links: u32,
}

impl Model for Table {
    ghost use Rattle.std.specs.Prelude.{List, ◌≡◌};
    ghost use Rattle.tdl_expr.specs.declared.nodes.Node.{Node as NodeValue};

    ghost Value = { List NodeValue };

    ghost use Rattle.tdl_expr.specs.Rows.{IsTable, sum_links};

    ghost view = { λ t. t.nodes.items };

    ghost invariant = { λ t. IsTable t.nodes.items × (t.links ≡ sum_links t.nodes.items) };
}

impl Table {
    /// A table without rows. What it grows by comes from the allocator.
    pub fn new(alloc: Global) -> Table
        ensures { result ≡ [] }
    {
        Table {
            nodes: Vec::new(alloc),
            links: 0,
        }
    }

    /// A table without rows, with room for so many.
    pub fn with_room(alloc: Global, rows: usize) -> Result<Table, NoMemory>
        ensures { IfOk result (λ table. table ≡ []) }
    {
        Ok(Table {
            nodes: Vec::with_capacity(alloc, rows)?,
            links: 0,
        })
    }

    /// How many rows there are.
    pub fn rows(&self) -> u32
        ensures value { result ≡ length self.now }
        ensures valid { IsTable self.now }
    {
        self.nodes.len() as u32
    }

    /// How many links there are.
    pub fn links(&self) -> u32
        ensures { result ≡ sum_links self.now }
    {
        self.links
    }

    /// The row of a number, from 0.
    pub fn id(&self, index: u32) -> NodeId
        requires { index < length self.now }
        ensures row { IsRow self.now result }
        ensures number { result.index ≡ index }
    {
        NodeId { index }
    }

    /// The node of a row.
    pub fn get(&self, id: NodeId) -> &Node
        requires { IsRow self.now id }
        ensures node { HoldsAt (λ node. result.now ≡ node) self.now id.index }
        ensures valid { IsNode id.index result.now }
        ensures tree { tree_at self.now id ≡ tree_of (trees_of self.now) result.now }
    {
        &self.nodes[id.index as usize]
    }

    /// Puts the node in a row of its own, after the others. `TooLarge` comes before `NoMemory`, and a
    /// refusal gives the node up.
    // In each caller the node is made where it is to stand.
    #[inline(always)]
    pub fn push(&mut self, node: Node) -> Result<NodeId, PushFault>
        requires { IsNode (length self.old) node }
        ensures ok { IfOk result (IsPushed self.old self.new node) }
        ensures refused { IfSome (overflow_of self.old node) (λ fault. result ≡ Err fault) }
        ensures only { IfErr result (λ fault. (overflow_of self.old node ≡ Some fault) ⊎ (fault ≡ PushFault.NoMemory)) }
        ensures err { OnErr result (self.new ≡ self.old) }
    {
        let index = self.rows();
        let rows = index + 1;
        let links = self.links + node.links();
        if rows > MAX_ROWS || links > MAX_LINKS {
            return Err(PushFault::TooLarge { rows, links });
        }
        self.nodes.push(node)?;
        self.links = links;
        Ok(NodeId { index })
    }

    /// What a table keeps while it grows: each row stands for what it stood for.
    pub fn growth_laws()
        ensures { TableGrowthLaws }
    {}

    /// The nodes are those of a table.
    pub fn table_law(&self)
        ensures { IsTable self.now }
    {
        self.rows();
    }

    /// Each row stands for a tree that can be played.
    pub fn validity_law()
        ensures { (nodes : List Node) (id : NodeId) → IsTable nodes → IsValid (tree_at nodes id) }
    {}
}
