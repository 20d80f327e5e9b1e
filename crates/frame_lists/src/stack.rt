ghost use Rattle.std.specs.Prelude.{◌≡◌, [], ◌∷◌, ◌++◌, length, take, OnOk, OnErr, IfOk, slice_get, ◌-◌};
ghost use Rattle.mm_model.specs.Statements.{is_empty};

use mm_base::{List, Memory};
use std::alloc::Global;
use std::marker::Model;

/// A list that grows at its end and is cut back.
#[derive(Debug, Drop)]
pub struct Stack<T> {
    items: Vec<T>,
}

impl<T> Model for Stack<T> {
    ghost use Rattle.std.specs.Prelude.{List};
    ghost use Rattle.std.specs.Coded.{coded_list};

    ghost Value = { List T };

    ghost coded = { coded_list T.code };

    ghost view = { λ stack. stack.items.items };
}

impl<T> Stack<T> {
    pub fn new(alloc: Global) -> Stack<T>
        ensures { result ≡ [] }
    {
        Stack {
            items: Vec::new(alloc),
        }
    }

    pub fn as_slice(&self) -> &[T]
        ensures { result.now ≡ self.now }
    {
        self.items.as_slice()
    }

    pub fn len(&self) -> usize
        ensures { result ≡ length self.now }
    {
        self.items.len()
    }

    pub fn is_empty(&self) -> bool
        ensures { result ≡ is_empty self.now }
    {
        self.items.is_empty()
    }

    /// The allocator that it took its memory from.
    pub fn allocator(&self) -> Global {
        *self.items.allocator()
    }

    /// A list without items.
    pub fn none(&self) -> List<T>
        ensures { result ≡ [] }
    {
        List::from_vec(Vec::new(*self.items.allocator()))
    }
}

impl<T: Drop> Stack<T> {
    pub fn push(&mut self, item: T) -> Result<(), Memory>
        ensures put { OnOk result (self.new ≡ self.old ++ item ∷ []) }
        ensures same { OnErr result (self.new ≡ self.old) }
    {
        self.items.push(item)?;
        Ok(())
    }

    /// Takes the last item off. None where there is none.
    pub fn pop(&mut self) -> Option<T>
        ensures last { result ≡ slice_get self.old (length self.old - 1) }
        ensures rest { self.new ≡ take (length self.old - 1) self.old }
    {
        self.items.pop()
    }

    /// Takes off all but the first so many.
    pub fn cut(&mut self, len: usize)
        ensures { self.new ≡ take len self.old }
    {
        self.items.truncate(len);
    }
}

impl<T: Copy> Stack<T> {
    /// Its items as a list of their own.
    pub fn copied(&self) -> Result<List<T>, Memory>
        ensures { IfOk result (λ list. list ≡ self.now) }
    {
        List::copy_of(*self.items.allocator(), self.items.as_slice())
    }
}
