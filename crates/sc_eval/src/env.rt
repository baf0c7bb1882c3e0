ghost use Rattle.std.specs.Prelude.{◌≡◌, ◌≢◌, IfErr, ◌++◌, ◌∷◌, [], None, Some, Err, OnOk, OnErr, false};
ghost use Rattle.std.specs.List.{list_any};
ghost use Rattle.sc_law.specs.Evaluation.{is_pair_named};
ghost use Rattle.sc_types.specs.declared.eval_fault.EvalFault.TheVariants.{Unknown};
ghost use Rattle.sc_law.specs.Data.{set, declare, is_reserved};
ghost use Rattle.sc_eval.specs.Envs.{env_of};

use crate::data_table::DataTable;
use crate::ids::Ids;
use sc_base::{NoMemory, Plain, PlainName, Shared, SharedBytes, Word};
use sc_bits::Row;
use sc_types::{EvalFault, Event, Profile, Value};
use std::sync::Arc;

/// What expressions read. SCXML 5.9 and 5.10.
#[derive(Drop)]
pub struct Env {
    pub values: DataTable,
    /// The active states.
    pub configuration: Row,
    /// The ids of the chart's states, below the width of `configuration`.
    pub ids: Arc<Ids>,
    /// The event that `_event` names.
    pub bound: Option<Shared<Event>>,
    /// `_sessionid`; at most 1,024 bytes.
    pub session: Word,
    /// `_name`; such as a text of the data model may be.
    pub chart_name: SharedBytes,
    /// Which values expressions can make.
    pub profile: Profile,
}

fn is_reserved(name: &[u8]) -> bool
    ensures { result ≡ is_reserved name.now }
{
    match name {
        [first, ..] => *first == b'_',
        [] => false,
    }
}

impl Env {
    /// Gives a datum a value. `Unknown` where the name is not declared, or begins with `_`; nothing is changed then.
    pub fn set(&mut self, name: &PlainName, value: Value) -> Result<(), EvalFault>
        ensures kept { self.new ≡ record self.old { values = self.new.values } }
        ensures ok { OnOk result (set name.now value (env_of self.old) ≡ Some (env_of self.new)) }
        ensures fault { OnErr result ((set name.now value (env_of self.old) ≡ None) × (result ≡ Err Unknown)
            × (self.new ≡ self.old)) }
    {
        self.set_named(name.bytes(), value)
    }

    /// The same with the name as an attribute gives it.
    #[tactic(auto, unfolding(sc_law::specs::Data::set))]
    pub fn set_named(&mut self, name: &[u8], value: Value) -> Result<(), EvalFault>
        ensures kept { self.new ≡ record self.old { values = self.new.values } }
        ensures ok { OnOk result (set name.now value (env_of self.old) ≡ Some (env_of self.new)) }
        ensures fault { OnErr result ((set name.now value (env_of self.old) ≡ None) × (result ≡ Err Unknown)
            × (self.new ≡ self.old)) }
    {
        if is_reserved(name) || !self.values.is_declared(name) {
            return Err(EvalFault::Unknown);
        }
        self.values.put(name, Some(value));
        Ok(())
    }

    /// Declares a name; the datum is unset, or keeps its value where it is declared already. `Unknown` where the
    /// name begins with `_`. Where the answer is a fault, nothing is changed.
    #[tactic(auto, unfolding(sc_law::specs::Data::declare))]
    pub fn declare(&mut self, name: &PlainName) -> Result<(), EvalFault>
        ensures kept { self.new ≡ record self.old { values = self.new.values } }
        ensures ok { OnOk result (declare name.now (env_of self.old) ≡ Some (env_of self.new)) }
        ensures fault { IfErr result (λ f. f ≢ EvalFault.NoMemory
            → (f ≡ Unknown) × (declare name.now (env_of self.old) ≡ None)) }
        ensures others { OnErr result (self.new ≡ self.old) }
    {
        if is_reserved(name.bytes()) {
            return Err(EvalFault::Unknown);
        }
        if self.values.is_declared(name.bytes()) {
            return Ok(());
        }
        declare_new(&mut self.values, name)
    }
}

fn declare_new(values: &mut DataTable, name: &PlainName) -> Result<(), EvalFault>
    requires { list_any (is_pair_named name.now) values.old ≡ false }
    ensures ok { OnOk result (values.new ≡ values.old ++ (name.now, None) ∷ []) }
    ensures err { OnErr result ((values.new ≡ values.old) × (result ≡ Err EvalFault.NoMemory)) }
{
    match name.copy() {
        Ok(name) => match values.declare(name) {
            Ok(()) => Ok(()),
            Err(NoMemory) => Err(EvalFault::NoMemory),
        },
        Err(NoMemory) => Err(EvalFault::NoMemory),
    }
}
