ghost use Rattle.std.specs.Prelude.{◌≡◌, ◌<◌, ◌∷◌, ◌++◌, [], length, vec_len, is_some, Some};
ghost use Rattle.std.specs.Vec.{vec_capacity};
ghost use Rattle.step_chain.specs.Steps.{verdict_in};
ghost use Rattle.step_chain.specs.Values.{accepted_in, kept_at, judged_in};

use crate::begun::{begin, logic_code};
use crate::judged::{Accepted, Judged, Pushed};
use crate::judging::judge;
use crate::reader::values;
use crate::reading::{TreeFault, Trees};
use chain_laws::WorkNode;
use mm_base::{Kinds, Label, List, Memory, Tree, Typecode};
use mm_database::Database;
use solve_model::{Bound, Verdict};
use std::alloc::Global;
use std::marker::Model;
use term_arena::{Arena, Id};

/// The steps of a bound worksheet, taken one after the other into one store of terms.
#[derive(Drop)]
pub struct Chain<'a> {
    alloc: Global,
    db: &'a Database,
    /// The typecode of formulas.
    logic: Typecode,
    bound: &'a Bound,
    arena: Arena,
    works: List<WorkNode>,
    /// The node of each step's formula.
    formulas: List<Id>,
    steps: Vec<Pushed>,
}

impl<'a> Model for Chain<'a> {
    ghost use Rattle.step_chain.specs.Held.{Held, IsHeld};

    ghost Value = { Held };

    ghost use Rattle.mm_base.specs.contracts.tree.Tree as tree;
    ghost use Rattle.std.specs.Coded.{codes};

    ghost coded = { Prim.hlevel (codes, tree.the_row.coded) };

    ghost view = { λ c. record {
      book = c.db.now;
      logic = c.logic;
      bound = c.bound.now;
      nodes = c.arena.nodes;
      links = c.arena.links;
      works = c.works;
      formulas = c.formulas;
      steps = c.steps.items;
    } };

    ghost invariant = { λ c. IsHeld (record {
      book = c.db.now;
      logic = c.logic;
      bound = c.bound.now;
      nodes = c.arena.nodes;
      links = c.arena.links;
      works = c.works;
      formulas = c.formulas;
      steps = c.steps.items;
    }) };
}

fn count(steps: &[Pushed]) -> usize
    ensures { result ≡ length steps.now }
{
    steps.len()
}

/// Adds a step where there is room for it.
fn put(steps: &mut Vec<Pushed>, pushed: Pushed)
    requires { vec_len steps.old < vec_capacity steps.old }
    ensures { steps.new.items ≡ steps.old.items ++ pushed ∷ [] }
{
    steps.push(pushed).unwrap();
}

fn fits(judged: &Judged) -> bool
    ensures { result ≡ is_some (accepted_in judged.now) }
{
    match judged {
        Judged::Stands(_) => false,
        Judged::Fits(_) => true,
    }
}

fn fits_at(steps: &[Pushed], i: u32) -> bool
    ensures { result ≡ is_some (kept_at steps.now i) }
{
    match steps.get(i as usize) {
        Some(pushed) => fits(&pushed.judged),
        None => false,
    }
}

/// What is judged of the step of a number.
fn judged_of(steps: &[Pushed], i: u32) -> &Judged
    requires { i < length steps.now }
    ensures { judged_in steps.now i ≡ Some result.now }
{
    &steps[i as usize].judged
}

fn verdict_of(judged: &Judged) -> Verdict
    ensures { result ≡ verdict_in judged.now }
{
    match judged {
        Judged::Stands(verdict) => *verdict,
        Judged::Fits(_) => Verdict::Fits,
    }
}

impl<'a> Chain<'a> {
    ghost use Rattle.std.specs.Prelude.{◌≡◌, ◌<◌, ◌≤◌, ◌^◌, [], length, take, slice_get, Some, IsSome, is_some, IsTrue, IfOk, OnErr};
    ghost use Rattle.solve_model.specs.Verdicts as verdicts;
    ghost use Rattle.solve_model.specs.Verdicts.{AreJudged};
    ghost use Rattle.solve_model.specs.MostGeneral.{IsTheValuation};
    ghost use Rattle.solve_model.specs.Bound.{work_size};
    ghost use Rattle.step_chain.specs.Steps.{ArePlaced, step_at};
    ghost use Rattle.solve_model.specs.Solutions.{Asked};
    ghost use Rattle.step_chain.specs.Ordered.{formula_at, reordered};
    ghost use Rattle.step_chain.specs.Values.{value_of, accepted_at, judged_at};
    ghost use Rattle.step_chain.specs.Levels.{IsUsedIf};
    ghost use Rattle.step_chain.specs.Answers.{IsAcceptedAs, OfAccepted, OfKept};
    ghost use Rattle.step_chain.specs.Held.{judgements_of, front_of, OfEachBook, IsFirst, IsHeld, IsPushed};

    /// The chain over a bound worksheet, with the nodes of its formulas and no step pushed, where these are the names of the
    /// two typecodes that have a meaning. The worksheet has fewer than 2^32 steps, and the places of each step name steps of
    /// it, fewer than 2^32, as those of a worksheet that was bound do. `Memory`: there is no room for them.
    pub fn new(
        alloc: Global,
        db: &'a Database,
        kinds: &Kinds,
        bound: &'a Bound,
    ) -> Result<Chain<'a>, Memory>
        requires placed { ArePlaced bound.now }
        requires few { length bound.now.steps < 2 ^ 32 }
        ensures { IfOk result (IsFirst kinds.now db.now bound.now) }
    {
        let logic = logic_code(db.frames(), kinds);
        let mut arena = Arena::new(alloc)?;
        let nodes = begin(alloc, &mut arena, db, logic, bound)?;
        Ok(Chain {
            alloc,
            db,
            logic,
            bound,
            arena,
            works: List::from_vec(nodes.works),
            formulas: List::from_vec(nodes.formulas),
            steps: Vec::new(alloc),
        })
    }

    /// The worksheet.
    pub fn bound(&self) -> &'a Bound
        ensures { result.now ≡ self.now.bound }
    {
        self.bound
    }

    /// How many steps were pushed. Each is judged by those that were accepted before it, and the chain stands for the most
    /// general valuation of those that are accepted. It takes constant time.
    pub fn pushed(&self) -> u32
        ensures count { result ≡ length (judgements_of self.now) }
        ensures judged { OfEachBook self.now (λ db. length (judgements_of self.now) ≡ length self.now.bound.steps
            → AreJudged db self.now.bound (judgements_of self.now)) }
        ensures valuation { OfEachBook self.now (λ db. IsTheValuation db self.now.bound (verdicts.accepted_in (judgements_of self.now)) (value_of self.now)) }
    {
        count(self.steps.as_slice()) as u32
    }

    /// How many steps the worksheet has.
    pub fn steps(&self) -> u32
        ensures { result ≡ length self.now.bound.steps }
    {
        let _steps = &self.steps;
        self.bound.steps.as_slice().len() as u32
    }

    /// The store of terms. It has at most as many nodes as the worksheet's work size.
    pub fn arena(&self) -> &Arena
        ensures few { OfEachBook self.now (λ db. length self.now.nodes ≤ work_size db self.now.bound) }
        ensures held { IsHeld self.now }
        ensures nodes { result.now.nodes ≡ self.now.nodes }
        ensures links { result.now.links ≡ self.now.links }
    {
        &self.arena
    }

    /// The node of a step's formula. It takes constant time.
    pub fn node(&self, i: u32) -> Id
        requires { i < length self.now.bound.steps }
        ensures node { result ≡ formula_at self.now.formulas i }
        ensures within { result.0 < length self.now.nodes }
    {
        self.formulas.as_slice()[i as usize]
    }

    /// Judges the next step, which is that of this number, and takes it into the store where it fits. It takes time in
    /// proportion to what is bound and to its assertion, in each order that is tried, however large the store is.
    /// `Memory`: there is no room, and nothing changed.
    pub fn push_step(&mut self, i: u32) -> Result<Verdict, Memory>
        requires next { i ≡ length (judgements_of self.old) }
        requires step { i < length self.old.bound.steps }
        ensures ok { IfOk result (IsPushed self.old self.new) }
        ensures err { OnErr result (self.new ≡ self.old) }
    {
        self.steps.reserve(1)?;
        let mark = self.arena.mark();
        let judged = judge(
            self.alloc,
            self.db,
            self.bound,
            &mut self.arena,
            self.formulas.as_slice(),
            i,
        )?;
        let verdict = verdict_of(&judged);
        put(&mut self.steps, Pushed { mark, judged });
        Ok(verdict)
    }

    /// Goes back to the first `k` steps. It takes time in proportion to what the others added.
    pub fn pop_to(&mut self, k: u32)
        ensures front { self.new ≡ front_of self.old k }
        ensures judgements { judgements_of self.new ≡ take k (judgements_of self.old) }
    {
        if (k as usize) < count(self.steps.as_slice()) {
            let mark = self.steps[k as usize].mark;
            self.arena.undo_to(mark);
            self.steps.truncate(k as usize);
        }
    }

    /// What is kept of a step that was accepted.
    fn accepted(&self, i: u32) -> &Accepted
        requires { IsSome (accepted_at self.now i) }
        ensures { accepted_at self.now i ≡ Some result.now }
    {
        match self.steps.as_slice().get(i as usize) {
            Some(
                Pushed {
                    judged: Judged::Fits(accepted),
                    ..
                },
            ) => accepted,
            _ => unreachable!(),
        }
    }

    /// What is judged of a step that was pushed. It takes constant time.
    pub fn judged(&self, i: u32) -> &Judged
        requires { i < length (judgements_of self.now) }
        ensures judged { judged_at self.now i ≡ Some result.now }
        ensures used { IsUsedIf self.now.book result.now }
    {
        judged_of(self.steps.as_slice(), i)
    }

    /// Whether a step was accepted. It takes constant time.
    pub fn is_accepted(&self, i: u32) -> bool
        ensures kept { result ≡ is_some (accepted_at self.now i) }
        ensures accepted { OfAccepted self.now i (λ _. IsTrue result) }
        ensures judged { IsTrue result → OfEachBook self.now (λ db. (y : Asked) × IsAcceptedAs self.now i y) }
    {
        fits_at(self.steps.as_slice(), i)
    }

    /// The label of an accepted step's assertion.
    pub fn label(&self, i: u32) -> Label
        requires { IsSome (accepted_at self.now i) }
        ensures { OfAccepted self.now i (λ y. y.assertion.label ≡ result) }
    {
        let _steps = &self.steps;
        self.accepted(i).label
    }

    /// The order in which an accepted step fits, as positions in its places.
    pub fn order(&self, i: u32) -> &List<u32>
        requires { IsSome (accepted_at self.now i) }
        ensures { OfAccepted self.now i (λ y. y.places ≡ reordered (step_at self.now.bound i).places result.now) }
    {
        let _steps = &self.steps;
        &self.accepted(i).order
    }

    /// The number of the `$e` of an accepted step.
    pub fn hyps(&self, i: u32) -> usize
        requires { IsSome (accepted_at self.now i) }
        ensures kept { OfKept self.now i (λ x. result ≡ length x.hyps) }
        ensures count { OfAccepted self.now i (λ y. result ≡ length y.assertion.hyps) }
    {
        let _steps = &self.steps;
        self.accepted(i).hyps.as_slice().len()
    }

    /// The trees of the steps, for several calls in turn. It counts the tokens of the store's nodes, in time and memory in
    /// proportion to them. `Memory`: there is no room.
    pub fn trees(&self) -> Result<ChainTrees<'_, 'a>, Memory>
        ensures { IfOk result (λ t. t ≡ self.now) }
    {
        let trees = Trees::of(self.alloc, &self.arena, self.works.as_slice())?;
        Ok(ChainTrees { chain: self, trees })
    }
}

/// The trees of a chain's steps, with the tokens of its store's nodes counted once.
#[derive(Drop)]
pub struct ChainTrees<'c, 'a> {
    chain: &'c Chain<'a>,
    trees: Trees<'c, 'c>,
}

impl<'c, 'a> Model for ChainTrees<'c, 'a> {
    ghost use Rattle.step_chain.specs.Held.{Held};
    ghost use Rattle.step_chain.specs.Answers.{IsOfChain};

    ghost Value = { Held };

    ghost use Rattle.mm_base.specs.contracts.tree.Tree as tree;
    ghost use Rattle.std.specs.Coded.{codes};

    ghost coded = { Prim.hlevel (codes, tree.the_row.coded) };

    ghost view = { λ t. t.chain.now };

    ghost invariant = { λ t. IsOfChain t.chain.now t.trees };
}

impl<'c, 'a> ChainTrees<'c, 'a> {
    ghost use Rattle.std.specs.Prelude.{◌≡◌, ◌<◌, length, slice_get, Some, IsSome, IfOk};
    ghost use Rattle.mm_base.specs.declared.tree.Tree.{Tree};
    ghost use Rattle.solve_model.specs.Solutions.{Asked, formula, instance};
    ghost use Rattle.step_chain.specs.Held.{OfEachBook};
    ghost use Rattle.step_chain.specs.Values.{value_of, accepted_at};
    ghost use Rattle.step_chain.specs.Readings.{IsRead};
    ghost use Rattle.step_chain.specs.Answers.{IsAcceptedAs, OfAccepted, OfKept, constants_of, values_of, AreRead};

    /// The chain of which these are the trees.
    pub fn chain(&self) -> &'c Chain<'a>
        ensures { result.now ≡ self.now }
    {
        self.chain
    }

    /// The formula of a step, under the most general valuation of the accepted steps. `TooLong`: its text, with a typecode, has
    /// so many tokens, over 4,096 (2^64 - 1 where there are more). `Memory`: there is no room.
    pub fn formula(&self, i: u32) -> Result<Tree, TreeFault>
        requires { i < length self.now.bound.steps }
        ensures { OfEachBook self.now (λ db. IsRead (constants_of self.now) (formula self.now.bound (value_of self.now) i) result) }
    {
        self.trees.tree(self.chain.node(i))
    }

    /// The `$e` of a number of an accepted step. Its errors are those of `formula`.
    pub fn place(&self, i: u32, k: usize) -> Result<Tree, TreeFault>
        requires accepted { IsSome (accepted_at self.now i) }
        requires hyp { OfKept self.now i (λ x. k < length x.hyps) }
        ensures { OfAccepted self.now i (λ y. (e : Tree) → slice_get y.assertion.hyps k ≡ Some e
            → IsRead (constants_of self.now) (instance (value_of self.now) i e) result) }
    {
        self.trees.tree(self.chain.accepted(i).hyps.as_slice()[k])
    }

    /// The trees in place of the mandatory variables of an accepted step, in the order of its frame. Its errors are those of
    /// `formula`, for the first tree that has one.
    pub fn substitution(&self, alloc: Global, i: u32) -> Result<List<Tree>, TreeFault>
        requires { IsSome (accepted_at self.now i) }
        ensures read { OfAccepted self.now i (λ y. AreRead (constants_of self.now) (values_of self.now i y) result) }
        ensures count { OfKept self.now i (λ x. IfOk result (λ ts. length ts ≡ length x.variables)) }
    {
        values(
            alloc,
            &self.trees,
            self.chain.accepted(i).variables.as_slice(),
        )
    }
}
