ghost use Rattle.std.specs.Prelude.{◌≡◌, List, [], ◌∷◌, reverse, OnOk, OnErr, IfSome, IfNone};
ghost use Rattle.mm_model.specs.Statements.{is_empty};

use mm_base::Memory;
use std::alloc::Global;
use std::marker::Model;

/// How much was active where a block began.
#[derive(Clone, Copy, Debug)]
pub struct Scope {
    pub variables: usize,
    pub typed: usize,
}

/// The open blocks, the innermost first.
#[derive(Debug, Drop)]
pub struct Scopes {
    /// The innermost last.
    items: Vec<Scope>,
}

impl Model for Scopes {
    ghost use Rattle.std.specs.Prelude.{List, reverse};
    ghost use Rattle.mm_frames.specs.declared.scopes.Scope.{Scope};

    ghost Value = { List Scope };

    ghost view = { λ s. reverse s.items.items };
}

impl Scopes {
    pub fn new(alloc: Global) -> Scopes
        ensures { result ≡ [] }
    {
        Scopes {
            items: Vec::new(alloc),
        }
    }

    pub fn is_empty(&self) -> bool
        ensures { result ≡ is_empty self.now }
    {
        self.items.is_empty()
    }

    pub fn open(&mut self, scope: Scope) -> Result<(), Memory>
        ensures put { OnOk result (self.new ≡ scope ∷ self.old) }
    {
        self.items.push(scope)?;
        Ok(())
    }

    /// Takes the innermost one off. None where no block is open.
    pub fn close(&mut self) -> Option<Scope>
        ensures none { IfNone result (self.old ≡ []) }
        ensures innermost { IfSome result (λ scope. self.old ≡ scope ∷ self.new) }
    {
        self.items.pop()
    }
}
