ghost use Rattle.std.specs.Prelude.{◌≡◌, IfOk, false};
ghost use Rattle.clap.specs.Words.{app_of, new_app, shape_of, with_subcommand};
ghost use Rattle.sc_words.specs.Commands.{IsCommand, IsLocal};
ghost use Rattle.sc_words.specs.Table.{bare_app, gen_app, run_app, the_app};

use clap::{Arg, Command};
use std::alloc::{AllocError, Global};

/// The table of commands.
pub(crate) fn table<'a>(alloc: Global) -> Result<Command<'a>, AllocError>
    ensures { IfOk result (IsCommand the_app) }
{
    let bare = Command::new(alloc, "charthost")
        .no_binary_name(true)
        .subcommand_required(true);
    let one = joined(bare, Command::new(alloc, "init"))?;
    let two = joined(one, run_command(alloc)?)?;
    let three = joined(two, Command::new(alloc, "show"))?;
    let four = joined(three, Command::new(alloc, "check"))?;
    joined(four, gen_command(alloc)?)
}

fn run_command<'a>(alloc: Global) -> Result<Command<'a>, AllocError>
    ensures { IfOk result (IsCommand run_app) }
{
    let workers = Arg::new(alloc, "workers").long("workers");
    let budget = Arg::new(alloc, "budget").long("budget");
    Command::new(alloc, "run").arg(workers)?.arg(budget)
}

fn gen_command<'a>(alloc: Global) -> Result<Command<'a>, AllocError>
    ensures { IfOk result (IsCommand gen_app) }
{
    let number = Arg::new(alloc, "number").required(true);
    let size = Arg::new(alloc, "size").required(true);
    Command::new(alloc, "gen").arg(number)?.arg(size)
}

fn joined<'a>(top: Command<'a>, sub: Command<'a>) -> Result<Command<'a>, AllocError>
    requires top { IsLocal top }
    requires sub { IsLocal sub }
    ensures { IfOk result (IsCommand (with_subcommand (app_of top.entry) (shape_of sub.entry))) }
{
    top.subcommand(sub)
}
