ghost use Rattle.std.specs.Prelude.{◌≡◌, ◌<◌, ◌≤◌};
ghost use Rattle.sc_law.specs.Tree.{state_count};
ghost use Rattle.sc_sets.specs.Conditions.{KeepsStates};

use sc_tables::Tables;
use sc_types::Histories;

/// What an entry goes by: the tables, what histories recorded, and the domain, below which states are entered.
#[derive(Drop)]
pub(crate) struct Entering<'a> {
    pub(crate) tables: &'a Tables,
    pub(crate) histories: &'a Histories,
    pub(crate) bound: u32,
    ghost kept: { KeepsStates tables.now histories.now },
    ghost within: { bound ≤ state_count tables.now },
    ghost small: { state_count tables.now < 4294967296 },
}

impl<'a> Entering<'a> {
    pub(crate) fn new(tables: &'a Tables, histories: &'a Histories, bound: u32) -> Entering<'a>
        requires kept { KeepsStates tables.now histories.now }
        requires bound { bound ≤ state_count tables.now }
        ensures tables { result.tables.now ≡ tables.now }
        ensures histories { result.histories.now ≡ histories.now }
        ensures bound { result.bound ≡ bound }
    {
        // The numbers of states have 32 bits.
        let _count = tables.count();
        Entering {
            tables,
            histories,
            bound,
        }
    }
}
