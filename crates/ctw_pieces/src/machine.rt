// The grammar as a machine with a stack of what is still to come.

ghost use Rattle.std.specs.Prelude.{◌≡◌, ◌++◌, ◌∷◌, [], IfOk, Some, None, reverse};
ghost use Rattle.ctw_text.specs.declared.sorts.Sort.TheVariants.{Module};
ghost use Rattle.ctw_pieces.specs.Moves.{pieces_in, sorts_in, with_last};
ghost use Rattle.ctw_pieces.specs.States.{Advanced, Ended};

use crate::PiecesKind;
use crate::faults::takes_open;
use crate::moves::{Longer, Next, Out};
use crate::steps::{Answer, at_token, behind_open};
use ctw_text::{Piece, Sort, Tok};
use std::alloc::{AllocError, Global};

/// A `(` at this offset, and the nonterminal that was to come there.
#[derive(Clone, Copy)]
pub struct Held {
    pub place: u32,
    pub sort: Sort,
}

/// How far the tokens have been read.
#[derive(Drop)]
pub struct Machine<'a> {
    /// What is still to come, the last one first.
    pub stack: Vec<Sort>,
    /// The `(` that was read last, if the next token says what it begins.
    pub held: Option<Held>,
    /// What was written.
    pub out: Vec<Piece<'a>>,
}

/// What became of a token.
#[derive(Clone, Copy)]
pub enum Progress {
    /// It was read.
    Ahead,
    /// It has no place.
    Stuck(PiecesKind),
    /// The `(` before it has no place.
    StuckBefore,
}

/// The machine before the first token.
pub fn started<'a>(alloc: Global) -> Result<Machine<'a>, AllocError>
    ensures { IfOk result (λ m. (m.stack.items ≡ Module ∷ []) × (m.held ≡ None) × (m.out.items ≡ [])) }
{
    let mut stack = Vec::new(alloc);
    stack.push(Sort::Module)?;
    Ok(Machine {
        stack,
        held: None,
        out: Vec::new(alloc),
    })
}

fn push_out<'a>(pieces: &mut Vec<Piece<'a>>, out: Out<'a>) -> Result<(), AllocError>
    ensures { IfOk result (λ _. pieces.new.items ≡ pieces.old.items ++ pieces_in out.entry) }
{
    match out {
        Out::Nothing => {}
        Out::One(first) => {
            pieces.push(first)?;
        }
        Out::Two(first, second) => {
            pieces.push(first)?;
            pieces.push(second)?;
        }
    }
    Ok(())
}

fn push_next(stack: &mut Vec<Sort>, next: Next) -> Result<(), AllocError>
    ensures { IfOk result (λ _. reverse stack.new.items ≡ sorts_in next ++ reverse stack.old.items) }
{
    match next {
        Next::Done => {}
        Next::One(a) => {
            stack.push(a)?;
        }
        Next::Two(a, b) => {
            stack.push(b)?;
            stack.push(a)?;
        }
        Next::Three(a, b, c) => {
            stack.push(c)?;
            stack.push(b)?;
            stack.push(a)?;
        }
        Next::Four(a, b, c, d) => {
            stack.push(d)?;
            stack.push(c)?;
            stack.push(b)?;
            stack.push(a)?;
        }
        Next::Five(a, b, c, d, e) => {
            stack.push(e)?;
            stack.push(d)?;
            stack.push(c)?;
            stack.push(b)?;
            stack.push(a)?;
        }
    }
    Ok(())
}

fn push_last(stack: &mut Vec<Sort>, last: Option<Sort>) -> Result<(), AllocError>
    ensures { IfOk result (λ _. reverse stack.new.items ≡ with_last [] last ++ reverse stack.old.items) }
{
    if let Some(sort) = last {
        stack.push(sort)?;
    }
    Ok(())
}

// Writes what a production writes, and puts what follows onto the stack.
fn go_on<'a>(
    stack: &mut Vec<Sort>,
    pieces: &mut Vec<Piece<'a>>,
    found: Longer<'a>,
) -> Result<(), AllocError>
    ensures out { IfOk result (λ _. pieces.new.items ≡ pieces.old.items ++ found.entry.out) }
    ensures next { IfOk result (λ _. reverse stack.new.items ≡ found.entry.next ++ reverse stack.old.items) }
{
    let Longer { out, next, last } = found;
    push_out(pieces, out)?;
    push_last(stack, last)?;
    push_next(stack, next)
}

impl<'a> Machine<'a> {
    // Behind a `(`.
    #[tactic(auto, using(crate::proofs::Advances::behind_takes, crate::proofs::Advances::behind_stuck, crate::proofs::Advances::behind_before, crate::proofs::Advances::behind_not))]
    fn behind(&mut self, ct: bool, held: Held, tok: &Tok<'a>) -> Result<Progress, AllocError>
        requires { self.old.held ≡ Some held }
        ensures { IfOk result (λ p. Advanced p ct tok.now self.old.held (reverse self.old.stack.items) self.old.out.items
            self.new.held (reverse self.new.stack.items) self.new.out.items) }
    {
        match behind_open(ct, held.sort, held.place, tok) {
            Answer::Takes(found) => {
                self.held = None;
                go_on(&mut self.stack, &mut self.out, found)?;
                Ok(Progress::Ahead)
            }
            Answer::Stuck(kind) => Ok(Progress::Stuck(kind)),
            Answer::StuckBefore => Ok(Progress::StuckBefore),
            Answer::Holds(_) => unreachable!(),
        }
    }

    // At the token where a nonterminal that was on top of the stack is to come.
    #[tactic(auto, using(crate::proofs::Advances::here_takes, crate::proofs::Advances::here_holds, crate::proofs::Advances::here_stuck, crate::proofs::Advances::here_not))]
    fn at(&mut self, ct: bool, sort: Sort, tok: &Tok<'a>) -> Result<Progress, AllocError>
        requires { self.old.held ≡ None }
        ensures { IfOk result (λ p. Advanced p ct tok.now None (sort ∷ reverse self.old.stack.items) self.old.out.items
            self.new.held (reverse self.new.stack.items) self.new.out.items) }
    {
        match at_token(ct, sort, tok) {
            Answer::Takes(found) => {
                go_on(&mut self.stack, &mut self.out, found)?;
                Ok(Progress::Ahead)
            }
            Answer::Stuck(kind) => Ok(Progress::Stuck(kind)),
            Answer::Holds(place) => {
                self.held = Some(Held { place, sort });
                Ok(Progress::Ahead)
            }
            Answer::StuckBefore => unreachable!(),
        }
    }

    /// Reads a token.
    #[tactic(auto, using(crate::proofs::Advances::nothing_left))]
    pub fn advance(&mut self, ct: bool, tok: &Tok<'a>) -> Result<Progress, AllocError>
        ensures { IfOk result (λ p. Advanced p ct tok.now self.old.held (reverse self.old.stack.items) self.old.out.items
            self.new.held (reverse self.new.stack.items) self.new.out.items) }
    {
        if let Some(held) = self.held {
            return self.behind(ct, held, tok);
        }
        match self.stack.pop() {
            Some(sort) => self.at(ct, sort, tok),
            None => Ok(Progress::Stuck(PiecesKind::Unexpected)),
        }
    }

    /// What becomes of the text's end.
    #[tactic(auto, using(crate::proofs::Advances::end_open, crate::proofs::Advances::end_before, crate::proofs::Advances::end_missing, crate::proofs::Advances::end_ahead))]
    pub fn ending(&self, ct: bool) -> Progress
        ensures { Ended result ct self.now.held (reverse self.now.stack.items) }
    {
        if let Some(held) = self.held {
            if takes_open(ct, held.sort) {
                return Progress::Stuck(PiecesKind::Unexpected);
            }
            return Progress::StuckBefore;
        }
        if self.stack.is_empty() {
            Progress::Ahead
        } else {
            Progress::Stuck(PiecesKind::Unexpected)
        }
    }
}
