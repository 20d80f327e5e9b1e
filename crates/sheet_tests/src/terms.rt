use mm_base::{Label, Memory, Sym, Tree, Typecode};
use std::alloc::Global;
use std::marker::Model;
use std::test::Fail;
use term_arena::{Arena, Id, Mark, Shape};
use term_unify::{read_off, unify};

const WFF: Typecode = Typecode(Sym(0));

const SETVAR: Typecode = Typecode(Sym(9));

// A store with a solution. What names no node of it is answered by `Memory`.
#[derive(Drop)]
struct Formulas {
    arena: Arena,
}

impl Model for Formulas {
    ghost use Rattle.term_model.specs.Store.{Store, IsSolved};

    ghost Value = { Store };

    ghost view = { λ f. f.arena };

    ghost invariant = { λ f. IsSolved f.arena.nodes f.arena.links };
}

// What is done with a store, and what has to come of it. Nodes are numbered in the order in which they are added.
#[derive(Clone, Copy)]
enum Step {
    Var(u32),
    Free(Typecode),
    // An implication, whose text has three constants.
    Implies(u32, u32),
    // A formula that doubles so often: each is an implication of the one before by itself.
    Tower(u32, u32),
    // Whether two nodes fit.
    Fits(u32, u32, bool),
    Acyclic(bool),
    End(u32, u32),
    Shape(u32, Shape),
    Size(u32, u64),
    // The tree is a variable, or its text is too long to be read off.
    Tree(u32, Option<u32>),
    Mark(Mark),
}

impl Formulas {
    fn new(alloc: Global) -> Result<Formulas, Memory> {
        let arena = Arena::new(alloc)?;
        Ok(Formulas { arena })
    }

    fn implication(&mut self, a: u32, b: u32) -> Result<Id, Memory> {
        let count = self.arena.count();
        if a >= count || b >= count {
            return Err(Memory);
        }
        self.arena
            .add_node(Label(1), WFF, 3, [Id(a), Id(b)].as_slice())
    }

    fn tower(&mut self, bottom: u32, height: u32) -> Result<Id, Memory> {
        let mut top = Id(bottom);
        for _ in 0..height {
            top = self.implication(top.0, top.0)?;
        }
        Ok(top)
    }

    fn fits(&mut self, a: u32, b: u32) -> Result<bool, Memory> {
        self.arena.ready()?;
        let count = self.arena.count();
        if a >= count || b >= count {
            return Err(Memory);
        }
        Ok(unify(&mut self.arena, Id(a), Id(b)).is_ok())
    }

    fn acyclic(&mut self) -> Result<bool, Memory> {
        self.arena.ready()?;
        Ok(self.arena.acyclic())
    }

    fn end(&self, id: u32) -> Option<Id> {
        if id < self.arena.count() {
            Some(self.arena.follow(Id(id)))
        } else {
            None
        }
    }

    fn shape(&self, id: u32) -> Option<Shape> {
        if id < self.arena.count() {
            Some(self.arena.look(Id(id)))
        } else {
            None
        }
    }

    fn size(&self, id: u32) -> Result<Option<u64>, Memory> {
        let sizes = self.arena.sizes()?;
        Ok(sizes.as_slice().get(id as usize).copied())
    }

    // The tree of a node, where its text is short.
    fn tree(&self, alloc: Global, id: u32) -> Result<Option<Tree>, Memory> {
        let sizes = self.arena.sizes()?;
        let Some(size) = sizes.as_slice().get(id as usize) else {
            return Ok(None);
        };
        if *size > 4095 {
            return Ok(None);
        }
        Ok(Some(read_off(alloc, &self.arena, Id(id))?))
    }

    // What changes no node: the answers about a store.
    fn shows(&self, alloc: Global, step: Step) -> Result<bool, Memory> {
        match step {
            Step::End(id, end) => Ok(self.end(id) == Some(Id(end))),
            Step::Shape(id, shape) => Ok(self.shape(id) == Some(shape)),
            Step::Size(id, size) => Ok(self.size(id)? == Some(size)),
            Step::Tree(id, wanted) => Ok(is_variable(self.tree(alloc, id)?, wanted)),
            Step::Mark(mark) => Ok(self.arena.mark() == mark),
            _ => Ok(true),
        }
    }

    fn takes(&mut self, step: Step) -> Result<bool, Memory> {
        match step {
            Step::Var(sym) => {
                self.arena.add_var(Sym(sym), WFF)?;
            }
            Step::Free(code) => {
                self.arena.add_free(code)?;
            }
            Step::Implies(a, b) => {
                self.implication(a, b)?;
            }
            Step::Tower(bottom, height) => {
                self.tower(bottom, height)?;
            }
            Step::Fits(a, b, wanted) => return Ok(self.fits(a, b)? == wanted),
            Step::Acyclic(wanted) => return Ok(self.acyclic()? == wanted),
            _ => {}
        }
        Ok(true)
    }

    // The number of the first step that comes out otherwise; none where all come out so.
    fn first_wrong(&mut self, alloc: Global, steps: &[Step]) -> Result<Option<usize>, Memory> {
        for (number, step) in steps.iter().enumerate() {
            if !self.takes(*step)? || !self.shows(alloc, *step)? {
                return Ok(Some(number));
            }
        }
        Ok(None)
    }
}

fn is_variable(tree: Option<Tree>, wanted: Option<u32>) -> bool {
    match tree {
        None => wanted.is_none(),
        Some(Tree::Var(sym, _)) => wanted == Some(sym.0),
        Some(_) => false,
    }
}

// The end of a node after all bindings were taken back.
fn unbound_end(formulas: Formulas, id: u32) -> Option<Id> {
    let Formulas { mut arena } = formulas;
    let nodes = arena.count();
    arena.undo_to(Mark { nodes, trail: 0 });
    if id < nodes {
        Some(arena.follow(Id(id)))
    } else {
        None
    }
}

// A store after these steps, where all come out as they have to. Two free formulas x and y are 0 and 1, two variables p
// and q are 2 and 3, and x -> y, y -> p and q -> x are 4, 5 and 6.
const NODES: &[Step] = &[
    Step::Free(WFF),
    Step::Free(WFF),
    Step::Var(5),
    Step::Var(6),
    Step::Implies(0, 1),
    Step::Implies(1, 2),
    Step::Implies(3, 0),
];

// A node within itself, two typecodes, two variables.
const REFUSES: &[Step] = &[
    Step::Free(SETVAR),
    Step::Fits(0, 4, false),
    Step::Fits(0, 7, false),
    Step::Fits(2, 3, false),
    Step::Mark(Mark { nodes: 8, trail: 0 }),
    Step::Shape(4, Shape::Node(Label(1), WFF, 2)),
];

// x -> y is y -> p, so both are p; q -> x is x -> y only where q is p.
const JOINS: &[Step] = &[
    Step::Fits(4, 5, true),
    Step::End(0, 2),
    Step::Fits(4, 6, false),
    Step::Mark(Mark { nodes: 7, trail: 3 }),
    Step::Acyclic(true),
];

// The text of the tower is one token less than the formula, whose typecode is counted too.
const DOUBLES: &[Step] = &[
    Step::Free(WFF),
    Step::Var(5),
    Step::Tower(0, 40),
    Step::Tower(1, 40),
    Step::Fits(41, 81, true),
    Step::Size(41, 4_398_046_511_101),
    Step::Tree(0, Some(5)),
];

// A tower does not fit within itself.
const STANDS_STILL: &[Step] = &[
    Step::Free(WFF),
    Step::Tower(0, 40),
    Step::Tower(40, 24),
    Step::Size(64, u64::MAX),
    Step::Tree(64, None),
    Step::Fits(40, 64, false),
];

// What of two lists of steps comes out otherwise.
fn first_wrong_of(alloc: Global, first: &[Step], then: &[Step]) -> Result<Option<usize>, Memory> {
    let mut formulas = Formulas::new(alloc)?;
    match formulas.first_wrong(alloc, first)? {
        Some(number) => Ok(Some(number)),
        None => formulas.first_wrong(alloc, then),
    }
}

// The end of y after all bindings were taken back.
fn end_behind(alloc: Global) -> Result<Option<Id>, Memory> {
    let mut formulas = Formulas::new(alloc)?;
    formulas.first_wrong(alloc, NODES)?;
    formulas.first_wrong(alloc, JOINS)?;
    Ok(unbound_end(formulas, 1))
}

#[test]
fn stores(rt: HostRuntime) -> Result<(), Fail> {
    for (first, then) in [
        (NODES, REFUSES),
        (NODES, JOINS),
        (DOUBLES, &[]),
        (STANDS_STILL, &[]),
    ] {
        assert!(rt; first_wrong_of(rt.alloc(), first, then)?.is_none());
    }
    assert!(rt; end_behind(rt.alloc())? == Some(Id(1)));
    Ok(())
}
