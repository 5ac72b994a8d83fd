//! The text of trees.
//!
//! The nodes of a tree stand in preorder: a number, `arg0`, `null`, `result`, `len T`, `elem int32[] T T`, `add T T`
//! and the other operators by their names, `neg T`, `not T`, `old T`, `cond T T T`. `is-zero T` is `ceq T 0`,
//! `and-one T` is `add T 1` and `one-and T` is `add 1 T`. A node of one operand may stand so many times: `neg*3 T` is
//! `neg neg neg T`.

use cil_model::{BinOp, Node, Place, Tree, UnOp};
use domain_api::NoMemory;
use rule_text::{Failure, operator, place};
use std::alloc::Global;

/// A constant, in a box.
fn constant(alloc: Global, n: i32) -> Result<Box<Tree>, Failure> {
    let node = Node::Const(n);
    Ok(Box::new(alloc, Tree { node })?)
}

/// A node of one operand.
fn unary(alloc: Global, word: &str, operand: Tree) -> Result<Node, Failure> {
    let operand = Box::new(alloc, operand)?;
    match word {
        "len" => Ok(Node::Len(operand)),
        "neg" => Ok(Node::Un(UnOp::Neg, operand)),
        "not" => Ok(Node::Un(UnOp::Not, operand)),
        "old" => Ok(Node::Old(operand)),
        "is-zero" => Ok(Node::Bin(BinOp::Ceq, operand, constant(alloc, 0)?)),
        "and-one" => Ok(Node::Bin(BinOp::Add, operand, constant(alloc, 1)?)),
        "one-and" => Ok(Node::Bin(BinOp::Add, constant(alloc, 1)?, operand)),
        _ => Err(Failure::Unread("a node of one operand")),
    }
}

/// Returns whether the word is one of a node of one operand.
fn is_unary(word: &str) -> bool {
    matches!(
        word,
        "len" | "neg" | "not" | "old" | "is-zero" | "and-one" | "one-and"
    )
}

/// A word, and how many times it stands.
fn repeated(word: &str) -> Result<(&str, u32), Failure> {
    let Some((word, count)) = word.split_once('*') else {
        return Ok((word, 1));
    };
    match count.parse::<u32>() {
        Ok(count) => Ok((word, count)),
        Err(_) => Err(Failure::Unread("how many times a node stands")),
    }
}

/// A node without operands.
fn leaf(word: &str) -> Result<Node, Failure> {
    if let Some(n) = word.strip_prefix("arg") {
        return match n.parse::<u16>() {
            Ok(n) => Ok(Node::Arg(n)),
            Err(_) => Err(Failure::Unread("the number of an argument")),
        };
    }
    match (word, word.parse::<i32>()) {
        ("null", _) => Ok(Node::Null),
        ("result", _) => Ok(Node::Result),
        (_, Ok(n)) => Ok(Node::Const(n)),
        _ => Err(Failure::Unread("a node")),
    }
}

/// The trees of the words that were read, from the last word on.
#[derive(Drop)]
struct Reader {
    alloc: Global,
    /// The tree of the word that was read last comes last.
    trees: Vec<Tree>,
    /// The type that was read last.
    place: Option<Place>,
}

impl Reader {
    /// The next operand of the word that is read.
    fn operand(&mut self) -> Result<Tree, Failure> {
        self.trees.pop().ok_or(Failure::Unread("a tree"))
    }

    /// The next operand, in a box.
    fn boxed(&mut self) -> Result<Box<Tree>, Failure> {
        let tree = self.operand()?;
        Ok(Box::new(self.alloc, tree)?)
    }

    /// The node of a word that is none of one operand.
    fn node(&mut self, word: &str) -> Result<Node, Failure> {
        if let Some(op) = operator(word) {
            return Ok(Node::Bin(op, self.boxed()?, self.boxed()?));
        }
        match word {
            "elem" => {
                let place = self.place.take().ok_or(Failure::Unread("a type"))?;
                Ok(Node::Elem(place, self.boxed()?, self.boxed()?))
            }
            "cond" => Ok(Node::Cond(self.boxed()?, self.boxed()?, self.boxed()?)),
            _ => leaf(word),
        }
    }

    /// A node of one operand, so many times over the next operand.
    fn repeat(&mut self, word: &str, count: u32) -> Result<Tree, Failure> {
        let mut tree = self.operand()?;
        for _ in 0..count {
            tree = Tree {
                node: unary(self.alloc, word, tree)?,
            };
        }
        Ok(tree)
    }

    /// Reads a word, whose operands were read.
    fn read(&mut self, text: &str) -> Result<(), Failure> {
        if let Some(place) = place(text) {
            self.place = Some(place);
            return Ok(());
        }
        let (word, count) = repeated(text)?;
        let tree = if is_unary(word) {
            self.repeat(word, count)?
        } else {
            let node = self.node(word)?;
            Tree { node }
        };
        self.trees.push(tree)?;
        Ok(())
    }
}

/// The tree of a text.
pub fn tree(alloc: Global, text: &str) -> Result<Tree, Failure> {
    let words: Vec<&str> = text.split_whitespace().collect(alloc)?;
    let mut reader = Reader {
        alloc,
        trees: Vec::new(alloc),
        place: None,
    };
    for word in words.as_slice().iter().rev() {
        reader.read(word)?;
    }
    let tree = reader.operand()?;
    if reader.trees.is_empty() && reader.place.is_none() {
        Ok(tree)
    } else {
        Err(Failure::Unread("the end of a tree"))
    }
}
