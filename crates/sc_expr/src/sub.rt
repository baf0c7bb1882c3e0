ghost use Rattle.std.specs.Prelude.{◌≡◌, ◌≢◌, ◌≤◌, IfOk};
ghost use Rattle.sc_types.specs.Expressions.{depth};
ghost use Rattle.sc_types.specs.declared.limits.TheConstants.{EXPRESSION_LEVEL_LIMIT};
ghost use Rattle.sc_types.specs.declared.expr.Expr.TheVariants.{Two, Item, Len, AsText};
ghost use Rattle.sc_expr.specs.Descent.{prefix_of};
ghost use Rattle.sc_expr.specs.Reads.{Makes};

use crate::fault::ExprFault;
use sc_types::{Boxed, EXPRESSION_LEVEL_LIMIT, Expr, NoMemory, Op};
use std::alloc::Global;
use std::marker::Model;

/// What stands before an operand.
#[derive(Clone, Copy, Debug, PartialEq, Eq)]
pub(crate) enum Prefix {
    Not,
    Minus,
}

/// An expression of at most 256 levels, with its depth. It has a place of its own, so that the frames of the reader,
/// which may be hundreds deep, hold no more than its address.
#[derive(Drop)]
pub(crate) struct Sub {
    expr: Boxed<Expr>,
    levels: u32,
}

impl Model for Sub {
    ghost use Rattle.sc_types.specs.declared.limits.TheConstants.{EXPRESSION_LEVEL_LIMIT};
    ghost use Rattle.std.specs.Prelude.{◌≡◌, ◌≤◌};
    ghost use Rattle.sc_types.specs.Expressions.{depth};
    ghost use Rattle.sc_types.specs.declared.expr.Expr.{Expr};
    ghost use Rattle.sc_types.specs.contracts.expr.Expr as c;
    ghost use Rattle.std.specs.Coded.{codes};

    ghost Value = { Expr };

    ghost coded = { Prim.hlevel (codes, c.the_row.coded) };

    ghost view = { λ s. s.expr };

    ghost invariant = { λ s. (s.levels ≡ depth s.expr) × (s.levels ≤ EXPRESSION_LEVEL_LIMIT) };
}

impl Sub {
    pub(crate) fn leaf(alloc: Global, expr: Expr) -> Result<Sub, NoMemory>
        requires { depth expr ≡ 1 }
        ensures value { IfOk result (λ s. s ≡ expr) }
        ensures shallow { IfOk result (λ s. depth s ≤ EXPRESSION_LEVEL_LIMIT) }
    {
        let expr = Boxed::new(alloc, expr)?;
        Ok(Sub { expr, levels: 1 })
    }

    pub(crate) fn limited(alloc: Global, expr: Expr, levels: u32) -> Result<Sub, ExprFault>
        requires { levels ≡ depth expr }
        ensures { Makes expr result }
    {
        if levels > EXPRESSION_LEVEL_LIMIT {
            return Err(ExprFault::NotExpr);
        }
        let expr = Boxed::new(alloc, expr)?;
        Ok(Sub { expr, levels })
    }

    pub(crate) fn depth(&self) -> u32
        ensures value { result ≡ depth self.now }
        ensures bound { result ≤ EXPRESSION_LEVEL_LIMIT }
    {
        self.levels
    }

    pub(crate) fn into_expr(self) -> Expr
        ensures value { result ≡ self }
        ensures shallow { depth self ≤ EXPRESSION_LEVEL_LIMIT }
    {
        self.expr.into_inner()
    }

    #[tactic(auto, using(crate::proofs::Rules::depths))]
    pub(crate) fn with_prefix(self, alloc: Global, prefix: Prefix) -> Result<Sub, ExprFault>
        ensures { Makes (prefix_of prefix self) result }
    {
        let Sub { expr, levels } = self;
        match prefix {
            Prefix::Not => Sub::limited(alloc, Expr::Not(expr), levels + 1),
            Prefix::Minus => Sub::limited(alloc, Expr::Neg(expr), levels + 1),
        }
    }

    #[tactic(auto, using(crate::proofs::Rules::depths))]
    pub(crate) fn len(self, alloc: Global) -> Result<Sub, ExprFault>
        ensures { Makes (Len self) result }
    {
        let Sub { expr, levels } = self;
        Sub::limited(alloc, Expr::Len(expr), levels + 1)
    }

    #[tactic(auto, using(crate::proofs::Rules::depths))]
    pub(crate) fn as_text(self, alloc: Global) -> Result<Sub, ExprFault>
        ensures { Makes (AsText self) result }
    {
        let Sub { expr, levels } = self;
        Sub::limited(alloc, Expr::AsText(expr), levels + 1)
    }

    #[tactic(auto, using(crate::proofs::Rules::depths))]
    pub(crate) fn two(alloc: Global, op: Op, left: Sub, right: Sub) -> Result<Sub, ExprFault>
        ensures { Makes (Two op left right) result }
    {
        let levels = left.levels.max(right.levels) + 1;
        Sub::limited(alloc, Expr::Two(op, left.expr, right.expr), levels)
    }

    #[tactic(auto, using(crate::proofs::Rules::depths))]
    pub(crate) fn item(alloc: Global, list: Sub, place: Sub) -> Result<Sub, ExprFault>
        ensures { Makes (Item list place) result }
    {
        let levels = list.levels.max(place.levels) + 1;
        Sub::limited(alloc, Expr::Item(list.expr, place.expr), levels)
    }
}
