//! Where a node stands in its tree.
use std::alloc::{AllocError, Global};
use syntax::kind::Kind;

/// What a node is to the node above it.
#[derive(Clone, Copy)]
pub(crate) enum Role {
    /// The whole rule.
    Whole,
    /// The body of a function.
    Body,
    /// What is applied to an argument.
    Applied,
    Argument,
    /// What a let binds.
    Bound,
    /// The body of a let.
    Rest,
    /// An operand of a sum.
    Summand,
    /// An operand of a comparison.
    Compared,
    Condition,
    Branch,
}

/// A node's role, and how many variables are in force around it.
#[derive(Clone, Copy)]
pub(crate) struct Standing {
    pub(crate) role: Role,
    pub(crate) around: usize,
}

impl Standing {
    /// Where a child of this role stands below. A function opens a variable in its body, and so does a let.
    fn child(self, role: Role) -> Standing {
        let opened = matches!(role, Role::Body | Role::Rest);
        Standing {
            role,
            around: self.around.saturating_add(usize::from(opened)),
        }
    }
}

/// What the children of a node of this kind are to it, from left to right.
fn roles(kind: Kind) -> &'static [Role] {
    match kind {
        Kind::Number | Kind::False | Kind::True | Kind::Variable => &[],
        Kind::Function => &[Role::Body],
        Kind::Application => &[Role::Applied, Role::Argument],
        Kind::LetIn => &[Role::Bound, Role::Rest],
        Kind::Sum => &[Role::Summand, Role::Summand],
        Kind::AtMost => &[Role::Compared, Role::Compared],
        Kind::IfElse => &[Role::Condition, Role::Branch, Role::Branch],
    }
}

/// Where the node stands that comes next behind nodes of these kinds; nothing where the tree ends before it. A node
/// comes before its children, and `readings` variables are in force around all.
pub(crate) fn standing_behind(
    heap: Global,
    kinds: &[Kind],
    readings: usize,
) -> Result<Option<Standing>, AllocError> {
    let mut awaited = vec![in heap;
        Standing {
            role: Role::Whole,
            around: readings
        },
    ]?;
    for kind in kinds {
        let Some(node) = awaited.pop() else {
            break;
        };
        for role in roles(*kind).iter().rev() {
            awaited.push(node.child(*role))?;
        }
    }
    Ok(awaited.pop())
}
