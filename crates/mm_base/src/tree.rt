ghost use Rattle.std.specs.Prelude.{◌≡◌, IfOk};

use crate::errors::Memory;
use crate::list::List;
use crate::symbols::{Label, Sym, Typecode};

/// A formula, or a part of one.
#[derive(Debug, Drop)]
pub enum Tree {
    /// A variable of the database.
    Var(Sym, Typecode),
    /// A work variable, by its typecode and its number, from 1.
    Work(Typecode, u32),
    /// A free unknown that has no name yet, by its node in the store of terms.
    Fresh(Typecode, u32),
    /// A production, with one tree for each of its variables, in the order of its frame.
    Node(Label, Typecode, List<Tree>),
}

impl Tree {
    /// An equal tree.
    pub fn copy(&self) -> Result<Tree, Memory>
        ensures { IfOk result (λ tree. tree ≡ self.now) }
    {
        match self {
            Tree::Var(sym, code) => Ok(Tree::Var(*sym, *code)),
            Tree::Work(code, number) => Ok(Tree::Work(*code, *number)),
            Tree::Fresh(code, number) => Ok(Tree::Fresh(*code, *number)),
            Tree::Node(label, code, children) => {
                let mut copies = Vec::new(children.allocator());
                for child in children.as_slice() {
                    copies.push(child.copy()?)?;
                }
                Ok(Tree::Node(*label, *code, List::from_vec(copies)))
            }
        }
    }
}
