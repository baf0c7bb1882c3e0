use sc_types::NoMemory;

/// Why a text was not read: it is outside the grammar, or the program was out of memory.
#[derive(Clone, Copy, Debug, PartialEq, Eq)]
pub enum ExprFault {
    NotExpr,
    NoMemory,
}

impl From<NoMemory> for ExprFault {
    ghost use Rattle.std.specs.Prelude.{◌≡◌};
    ghost use Rattle.sc_expr.specs.declared.fault.ExprFault.TheVariants.{NoMemory};

    ghost from_gives = { λ _ e. e ≡ NoMemory };

    fn from(_error: NoMemory) -> ExprFault {
        ExprFault::NoMemory
    }
}
