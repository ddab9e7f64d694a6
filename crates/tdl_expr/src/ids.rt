ghost use Rattle.std.specs.Prelude.{◌≡◌};

use tdl_control::List;

/// A row of a table, by its number from 0.
#[derive(Clone, Copy, Debug, Default, PartialEq, Eq)]
pub struct NodeId {
    pub(crate) index: u32,
}

impl NodeId {
    /// The number of the row, from 0.
    pub fn index(self) -> u32
        ensures { result ≡ self.index }
    {
        self.index
    }
}

/// Rows, in order.
pub type Ids = List<NodeId>;
