//! Trees of tests and exits, with shared nodes.

/// Where a walk stays.
#[derive(Clone, Copy, Debug, PartialEq, Eq)]
pub enum Region {
    /// In the whole method.
    Top,
    /// In the loop at this place of the forest's list.
    Loop(u32),
}

/// What a walk looks for. `Back` and `Leave` are asked of loops alone.
#[derive(Clone, Copy, Debug, PartialEq, Eq)]
pub enum Target {
    /// This block of the region, or the inner loop of which it is the header.
    Node(u32),
    /// The edges to the header of the region's loop.
    Back,
    /// An end of the method, by a return or by an exception.
    Exit,
    /// A return.
    Return,
    /// An exit that leaves the region's loop, or one to its header: whether the loop is left.
    Leave,
}

/// A node of a tree.
#[derive(Clone, Copy, Debug, PartialEq, Eq)]
pub enum TreeNode {
    /// An exit of a block that is looked for.
    Leaf {
        block: u32,
        exit: u32,
    },
    /// A test of a block, and the nodes for yes and no.
    Test {
        block: u32,
        test: u32,
        yes: u32,
        no: u32,
    },
    /// Nothing that is looked for.
    Nothing,
    /// Neither the target nor an end of the method is ahead.
    Dead,
}

/// A tree, as a list of its nodes. Each node names only earlier ones, and the last is the root.
#[derive(Debug, Drop)]
pub struct Tree {
    pub nodes: Vec<TreeNode>,
}
