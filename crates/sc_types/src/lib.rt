//! The plain data of the host: texts, values, charts, events, sessions, commands and entries, with their limits.
//!
//! A list in a field is a [`Sequence`], or a [`ShortList`] of states, which contracts see as the list of its items, so
//! that a copy of any of these types equals what it copies.
#![tactic(auto)]

mod attribute;
mod chart;
mod command;
mod effect;
mod eval_fault;
mod event;
mod expr;
pub mod faults;
mod history;
mod host;
mod limits;
mod node;
mod profile;
mod session;
mod short_list;
mod state_kind;
mod token;
mod value;

pub use attribute::{Attribute, Form};
pub use chart::{Chart, ChartFault, ChartRefusal, Member, Node, Tag};
pub use command::{Command, Refusal, Reply};
pub use effect::Effect;
pub use eval_fault::EvalFault;
pub use event::{Data, Event, Kind};
pub use expr::{EventField, Expr, Op};
pub use history::{Delivery, Entry, LogLine, Who};
pub use host::{ChartImage, HostImage, InvokerImage, SessionImage, TimerImage, To};
pub use limits::{
    CHART_TEXT_LIMIT, CLIENT_LIMIT, CLOCK_LIMIT, DEFAULT_ROUNDS, DELAY_LIMIT, EVENT_NAME_LIMIT,
    EXPRESSION_LEVEL_LIMIT, ID_LIMIT, INVOKE_DEPTH_LIMIT, ITEM_LIMIT, LEVEL_LIMIT,
    LIST_DEPTH_LIMIT, NAME_LIMIT, PAIR_LIMIT, POST_WEIGHT_LIMIT, ROUND_LIMIT, SCRIPT_TEXT_LIMIT,
    SEND_TARGET_LIMIT, STATE_LIMIT, TYPE_NAME_LIMIT, VALUE_WEIGHT_LIMIT,
};
pub use profile::{PROFILE_COUNT, Profile};
pub use sc_base::{
    Boxed, BoxedSequence, Bytes, Failure, Name, NoMemory, PLAIN_NAME_LIMIT, Plain, PlainName,
    Queue, Remaining, Sequence, Shared, SharedBytes, TEXT_LIMIT, TextWriter, Unfit, Word,
    is_plain_name, is_text, is_word,
};
pub use session::{Cue, CueName, Histories, How, Invoked, Phase, SessionState, Values};
pub use short_list::ShortList;
pub use state_kind::StateKind;
pub use token::{Mark, Token};
pub use value::{PairList, Value};
