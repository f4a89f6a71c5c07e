//! The levels of an expression that is being read, one for each open parenthesis.

ghost use Rattle.std.specs.Prelude.{◌≡◌, [], None, Some, IfOk, length};
ghost use Rattle.std.specs.Option.{option_map};
ghost use Rattle.regex_ast.specs.Expressions.{tree_of};
ghost use Rattle.regex_ast.specs.Nests.{levels, put, joined, chosen, settled, level_whole, pushed, signed, nest_end, depth_of};
ghost use Rattle.regex_ast.specs.Held.{trees_of, nest_of, signed_by};

use crate::lexer::Piece;
use crate::regex::Regex;
use std::alloc::{AllocError, Global};

/// A sign that repeats the factor before it.
#[derive(Drop)]
pub(crate) enum Sign {
    Star,
    Plus,
    Maybe,
}

/// The expression so far at one level of parentheses.
#[derive(Drop)]
pub(crate) struct Level {
    /// The branches before the last bar.
    pub(crate) choice: Option<Regex>,
    /// The factors of the last branch.
    pub(crate) branch: Option<Regex>,
}

/// What is read so far. Signs apply to the last factor, so it stands apart from its branch.
#[derive(Drop)]
pub(crate) struct Stack {
    /// The levels around this one, the innermost last.
    pub(crate) outer: Vec<Level>,
    /// The branches of this level before its last bar.
    pub(crate) choice: Option<Regex>,
    /// The factors of the last branch before the last one.
    pub(crate) branch: Option<Regex>,
    /// The last factor with its signs, or none where a branch begins.
    pub(crate) factor: Option<Regex>,
}

impl Stack {
    pub(crate) fn new(alloc: Global) -> Self
        ensures { nest_of result ≡ levels [] None None None }
    {
        Stack {
            outer: Vec::new(alloc),
            choice: None,
            branch: None,
            factor: None,
        }
    }

    /// How many parentheses stand open.
    pub(crate) fn depth(&self) -> usize
        ensures { result ≡ depth_of (nest_of self.now) }
    {
        self.outer.len()
    }

    /// The stack after the piece, or `None` where the piece may not stand here.
    pub(crate) fn put(self, alloc: Global, piece: Piece) -> Result<Option<Stack>, AllocError>
        ensures { IfOk result (λ next. option_map nest_of next ≡ put piece (nest_of self)) }
    {
        match piece {
            Piece::OneOf(set) => self.push(alloc, Regex::Class(set)),
            Piece::Open => self.open(alloc),
            Piece::Close => self.close(alloc),
            Piece::Bar => self.bar(alloc),
            Piece::StarSign => self.sign(alloc, Sign::Star),
            Piece::PlusSign => self.sign(alloc, Sign::Plus),
            Piece::MaybeSign => self.sign(alloc, Sign::Maybe),
        }
    }

    /// The expression that is read, or `None` where it may not end here.
    pub(crate) fn finish(self, alloc: Global) -> Result<Option<Regex>, AllocError>
        ensures { IfOk result (λ r. trees_of r ≡ nest_end (nest_of self)) }
    {
        let Stack {
            outer,
            choice,
            branch,
            factor,
        } = self;
        if !outer.is_empty() {
            return Ok(None);
        }
        match factor {
            None => Ok(None),
            Some(factor) => Ok(Some(close_level(alloc, choice, branch, factor)?)),
        }
    }

    /// One more factor.
    fn push(self, alloc: Global, next: Regex) -> Result<Option<Stack>, AllocError>
        ensures { IfOk result (λ s. option_map nest_of s ≡ pushed (tree_of next) (nest_of self)) }
    {
        let Stack {
            outer,
            choice,
            branch,
            factor,
        } = self;
        let branch = settle(alloc, branch, factor)?;
        Ok(Some(Stack {
            outer,
            choice,
            branch,
            factor: Some(next),
        }))
    }

    /// A level inside this one.
    fn open(self, alloc: Global) -> Result<Option<Stack>, AllocError>
        ensures { IfOk result (λ s. option_map nest_of s ≡ put Piece.Open (nest_of self)) }
    {
        let Stack {
            mut outer,
            choice,
            branch,
            factor,
        } = self;
        let branch = settle(alloc, branch, factor)?;
        outer.push(Level { choice, branch })?;
        Ok(Some(Stack {
            outer,
            choice: None,
            branch: None,
            factor: None,
        }))
    }

    /// The level around this one, with this one as its last factor.
    fn close(self, alloc: Global) -> Result<Option<Stack>, AllocError>
        ensures { IfOk result (λ s. option_map nest_of s ≡ put Piece.Close (nest_of self)) }
    {
        let Stack {
            mut outer,
            choice,
            branch,
            factor,
        } = self;
        match (outer.pop(), factor) {
            (Some(around), Some(factor)) => {
                let inner = close_level(alloc, choice, branch, factor)?;
                let Level { choice, branch } = around;
                Ok(Some(Stack {
                    outer,
                    choice,
                    branch,
                    factor: Some(inner),
                }))
            }
            _ => Ok(None),
        }
    }

    /// One more branch.
    fn bar(self, alloc: Global) -> Result<Option<Stack>, AllocError>
        ensures { IfOk result (λ s. option_map nest_of s ≡ put Piece.Bar (nest_of self)) }
    {
        let Stack {
            outer,
            choice,
            branch,
            factor,
        } = self;
        let Some(factor) = factor else {
            return Ok(None);
        };
        Ok(Some(Stack {
            outer,
            choice: Some(close_level(alloc, choice, branch, factor)?),
            branch: None,
            factor: None,
        }))
    }

    /// A sign after the last factor.
    fn sign(self, alloc: Global, sign: Sign) -> Result<Option<Stack>, AllocError>
        ensures { IfOk result (λ s. option_map nest_of s ≡ signed (signed_by sign) (nest_of self)) }
    {
        let Stack {
            outer,
            choice,
            branch,
            factor,
        } = self;
        let Some(factor) = factor else {
            return Ok(None);
        };
        let factor = Some(with_sign(alloc, sign, factor)?);
        Ok(Some(Stack {
            outer,
            choice,
            branch,
            factor,
        }))
    }
}

/// The factor with the sign behind it.
fn with_sign(alloc: Global, sign: Sign, factor: Regex) -> Result<Regex, AllocError>
    ensures { IfOk result (λ r. tree_of r ≡ signed_by sign (tree_of factor)) }
{
    let factor = Box::new(alloc, factor)?;
    match sign {
        Sign::Star => Ok(Regex::Star(factor)),
        Sign::Plus => Ok(Regex::Plus(factor)),
        Sign::Maybe => Ok(Regex::Maybe(factor)),
    }
}

/// The branch with the factor at its end.
fn join(alloc: Global, branch: Option<Regex>, factor: Regex) -> Result<Regex, AllocError>
    ensures { IfOk result (λ r. tree_of r ≡ joined (trees_of branch) (tree_of factor)) }
{
    match branch {
        None => Ok(factor),
        Some(branch) => Ok(Regex::Then(Box::new(alloc, branch)?, Box::new(alloc, factor)?)),
    }
}

/// The branch with the last factor, if there is one, at its end.
fn settle(
    alloc: Global,
    branch: Option<Regex>,
    factor: Option<Regex>,
) -> Result<Option<Regex>, AllocError>
    ensures { IfOk result (λ r. trees_of r ≡ settled (trees_of branch) (trees_of factor)) }
{
    match factor {
        None => Ok(branch),
        Some(factor) => Ok(Some(join(alloc, branch, factor)?)),
    }
}

/// The expression of a level that ends with this factor.
fn close_level(
    alloc: Global,
    choice: Option<Regex>,
    branch: Option<Regex>,
    factor: Regex,
) -> Result<Regex, AllocError>
    ensures { IfOk result (λ r. tree_of r ≡ level_whole (trees_of choice) (trees_of branch) (tree_of factor)) }
{
    let last = join(alloc, branch, factor)?;
    match choice {
        None => Ok(last),
        Some(choice) => Ok(Regex::Or(Box::new(alloc, choice)?, Box::new(alloc, last)?)),
    }
}
