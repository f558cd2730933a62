//! Why the types of a rule do not go together.
//!
//! Nodes are asked in their order, and each only says what its kind asks for. So what is known of the refused node is
//! that those before it go together and that they no longer do with it. Its children come after it and have no part
//! in that: what is told is what the node itself is, and what is asked where it stands.
use crate::node_at::NodeAt;
use crate::standing::{Role, standing_behind};
use messages::reason::Reason;
use std::alloc::{AllocError, Global};
use syntax::kind::Kind;
use syntax::node::Node;

/// What a node's kind tells of a type.
#[derive(Clone, Copy)]
enum Plain {
    Int,
    Bool,
    Function,
}

/// What is known of the type of a node by its kind alone.
#[derive(Clone, Copy)]
enum Own {
    /// It has this type, as these words say.
    Told(Plain, &'static str),
    /// It is a name that a `fun` or a `let` opens.
    Opened,
    /// It takes the type that is asked for.
    Any,
}

/// What is asked of a node where it stands.
#[derive(Clone, Copy)]
enum Asked {
    /// A type that the node above it tells by its kind.
    Told(Plain, &'static str),
    /// A function of its argument and of what is asked of the application.
    Function,
    /// A type that depends on what stands before.
    Depends(&'static str),
}

/// A node that does not go with those before it.
#[derive(Clone, Copy)]
struct Clash {
    own: Own,
    role: Role,
    /// Whether it is applied to a number below 0.
    before_a_minus: bool,
}

/// Why a node is the first at which the types do not go together, and what to write instead in a text.
pub(crate) fn clash_at(heap: Global, node: NodeAt) -> Result<Reason, AllocError> {
    let clash = Clash::at(heap, node)?;
    let why = clash.why(heap)?;
    Ok(Reason::new(clash.title(), why, clash.advice()))
}

impl Clash {
    fn at(heap: Global, node: NodeAt) -> Result<Clash, AllocError> {
        let kinds: Vec<Kind> = node.before().iter().map(|node| node.kind()).collect(heap)?;
        let standing = standing_behind(heap, kinds.as_slice(), 0)?;
        Ok(Clash {
            own: node.node().map_or(Own::Any, own_of),
            role: standing.map_or(Role::Whole, |standing| standing.role),
            before_a_minus: node.is_before_a_minus(),
        })
    }

    fn asked(&self) -> Asked {
        match self.role {
            Role::Summand => Asked::Told(Plain::Int, "`+` adds two ints"),
            Role::Compared => Asked::Told(Plain::Int, "`<=` compares two ints"),
            Role::Condition => Asked::Told(Plain::Bool, "the condition of an `if` is a bool"),
            Role::Applied => Asked::Function,
            Role::Argument => Asked::Depends("an argument has the type that its function takes"),
            Role::Branch => Asked::Depends("both branches of an `if` have the type of the `if`"),
            Role::Body => {
                Asked::Depends("the body of a `fun` has the type that the function answers")
            }
            Role::Rest => Asked::Depends("the body of a `let` has the type of the `let`"),
            Role::Bound | Role::Whole => Asked::Depends("every part has one type"),
        }
    }

    /// What is wrong: which types meet, where both are told by kinds of nodes alone.
    fn title(&self) -> &'static str {
        match (self.asked(), self.own) {
            (Asked::Told(Plain::Int, _), Own::Told(Plain::Bool, _)) => "expected int, found bool",
            (Asked::Told(Plain::Int, _), Own::Told(Plain::Function, _)) => {
                "expected int, found a function"
            }
            (Asked::Told(Plain::Bool, _), Own::Told(Plain::Int, _)) => "expected bool, found int",
            (Asked::Told(Plain::Bool, _), Own::Told(Plain::Function, _)) => {
                "expected bool, found a function"
            }
            (Asked::Function, Own::Told(Plain::Int, _)) => "expected a function, found int",
            (Asked::Function, Own::Told(Plain::Bool, _)) => "expected a function, found bool",
            _ => "the types no longer go together here",
        }
    }

    fn why(&self, heap: Global) -> Result<String, AllocError> {
        match (self.own, self.asked()) {
            (Own::Told(_, own), Asked::Told(_, asked)) => format!(in heap; "{own}, but {asked}"),
            (Own::Told(_, own), Asked::Function) => format!(in heap;
                "{own}, but what is applied to an argument is a function"
            ),
            (Own::Told(_, own), Asked::Depends(asked)) => format!(in heap;
                "{own}, but {asked}, and by what stands before that is another"
            ),
            (Own::Opened, Asked::Told(_, asked)) => format!(in heap;
                "{asked}, and by what stands before this name has another type"
            ),
            (Own::Opened | Own::Any, Asked::Function) => String::from_str(
                heap,
                "what is applied takes its argument and answers what is asked for here, and by what stands before this has another type",
            ),
            (Own::Opened, Asked::Depends(asked)) => format!(in heap;
                "a name has one type wherever it is used, and {asked}; with what stands before, both cannot be"
            ),
            (Own::Any, Asked::Told(_, asked) | Asked::Depends(asked)) => format!(in heap;
                "{asked}, and with what stands before that cannot be"
            ),
        }
    }

    fn advice(&self) -> &'static str {
        match (self.role, self.own) {
            (Role::Summand | Role::Compared, _) => {
                "write an int here; `if t then 1 else 0` makes one of a truth t"
            }
            (Role::Condition, _) => "write a truth here, as the comparison `1 <= a` for an int a",
            (Role::Applied, Own::Told(_, _)) if self.before_a_minus => {
                "write `a + -1` for `a - 1`: a number behind a part is its argument"
            }
            (Role::Applied, Own::Told(_, _)) => {
                "write a function before its argument, or an operator between the two"
            }
            (Role::Applied, _) => {
                "use a name with one type throughout, and another name for another type"
            }
            (Role::Argument, _) => "give the function what it takes, or let it take this",
            (Role::Branch, _) => "let both branches, and what is done with them, be of one type",
            (Role::Body | Role::Rest | Role::Bound | Role::Whole, _) => {
                "change this part, or what stands before it, so that the two agree"
            }
        }
    }
}

/// What a node says of its type.
fn own_of(node: Node) -> Own {
    match node {
        Node::Number(_) => Own::Told(Plain::Int, "a number is an int"),
        Node::Truth(_) => Own::Told(Plain::Bool, "a truth is a bool"),
        Node::Sum(_, _) => Own::Told(Plain::Int, "a sum is an int"),
        Node::AtMost(_, _) => Own::Told(Plain::Bool, "a comparison is a bool"),
        Node::Function(_) => Own::Told(Plain::Function, "`fun` makes a function"),
        Node::Variable(_) => Own::Opened,
        Node::Reading(_) => Own::Told(Plain::Int, "a reading is an int"),
        Node::Application(_, _) | Node::LetIn(_, _) | Node::IfElse(_, _, _) => Own::Any,
    }
}
