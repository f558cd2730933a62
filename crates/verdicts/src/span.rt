//! The part of a text that a node was made from.
//!
//! Numbers, truths, used names, `fun`, `let` and `if` stand in the text in the order of their nodes. A sum, a
//! comparison and an application have no token at their front: they begin where their first child begins. The last
//! node of every tree is a number, a truth or a name, so that each part ends with one.
use crate::node_at::NodeAt;
use grammar::Mark;
use lexer::token::Token;
use messages::frame::Span;
use messages::tokens::{Piece, Tokens};
use std::alloc::{AllocError, Global};
use syntax::node::Node;

/// The part of a text that a node comes from; all of it where the text is not that of the nodes.
pub(crate) fn span_of(heap: Global, text: &[u8], node: NodeAt) -> Result<Span, AllocError> {
    let first = first_token(text, node);
    let last = first_token(text, node.last_below());
    match (first, last) {
        (Some(first), Some(last)) => balanced(
            heap,
            text,
            Span {
                place: first.place,
                stop: last.stop,
            },
        ),
        _ => Ok(Span {
            place: 0,
            stop: text.len(),
        }),
    }
}

/// The first token of the part that a node comes from.
fn first_token<'a>(text: &'a [u8], node: NodeAt) -> Option<Piece<'a>> {
    let before = node
        .before()
        .iter()
        .filter(|node| !begins_with_child(**node))
        .count();
    Tokens::of(text)
        .filter(|piece| piece.begins_node())
        .nth(before)
}

/// Whether a node has no token at its front.
fn begins_with_child(node: Node) -> bool {
    matches!(
        node,
        Node::Application(_, _) | Node::Sum(_, _) | Node::AtMost(_, _)
    )
}

/// Widens a part by the parentheses that it has only one of.
fn balanced(heap: Global, text: &[u8], span: Span) -> Result<Span, AllocError> {
    let mut wide = span;
    let mut open = Vec::new(heap);
    for piece in Tokens::of(text) {
        match piece.token {
            Token::Mark(Mark::Open) => open.push(piece.place)?,
            Token::Mark(Mark::Close) => {
                if let Some(opening) = open.pop() {
                    wide = around(wide, opening, piece);
                }
            }
            _ => {}
        }
    }
    Ok(wide)
}

/// A part that has one of two parentheses gets the other too.
fn around(span: Span, opening: usize, closing: Piece) -> Span {
    let part = span.place..span.stop;
    match (part.contains(&opening), part.contains(&closing.place)) {
        (false, true) => Span {
            place: opening,
            stop: span.stop,
        },
        (true, false) => Span {
            place: span.place,
            stop: closing.stop,
        },
        _ => span,
    }
}
