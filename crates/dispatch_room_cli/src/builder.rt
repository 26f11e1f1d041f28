//! The program as a command of clap, put together from the forms of its commands.

ghost use Rattle.std.specs.Prelude.{IfOk};
ghost use Rattle.clap.specs.Words.{new_rule};
ghost use Rattle.dispatch_room_cli.specs.CommandForms.{AreAllCommands, AreArgs, AreCommands, IsArg};
ghost use Rattle.dispatch_room_cli.specs.CommandForms.{IsCommandOf, IsProgram, rule_by};
ghost use Rattle.dispatch_room_cli.specs.CommandForms.{rule_of_word};
ghost use Rattle.dispatch_room_cli.specs.declared.command_options.WordKind.TheVariants.{Flag};
ghost use Rattle.dispatch_room_cli.specs.declared.command_options.WordKind.TheVariants.{Named};
ghost use Rattle.dispatch_room_cli.specs.declared.command_options.WordKind.TheVariants.{Optional};

use crate::command_options::{CommandForm, FORMS, Word, WordKind};
use clap::builder::ValueParser;
use clap::{Arg, ArgAction, Command};
use std::alloc::{AllocError, Global};

/// The program of this version. Its words have to name a command.
pub fn program<'a>(alloc: Global, version: &'a str) -> Result<Command<'a>, AllocError>
    ensures { IfOk result IsProgram }
{
    let commands = all_commands(alloc)?;
    let program = Command::new(alloc, "dispatch_room")
        .about(
            "Keeps the control room of an ambulance service in one SQLite file, \
             and serves it over HTTP",
        )
        .after_help(
            "Without a command it is the dry run: an example room in memory, requests from \
             standard input, answers to standard output.\n\n\
             Exit status: 0 done, 1 refused input, 2 usage, 3 storage, 4 network, 5 memory, \
             6 journal",
        )
        .version(version)
        .subcommand_required(true)
        .subcommands(commands)?;
    Ok(program)
}

// All commands.
fn all_commands<'a>(alloc: Global) -> Result<Vec<Command<'a>>, AllocError>
    ensures { IfOk result (λ commands. AreAllCommands commands.items) }
{
    commands(alloc, &FORMS)
}

fn commands<'a>(alloc: Global, forms: &[CommandForm]) -> Result<Vec<Command<'a>>, AllocError>
    ensures { IfOk result (λ commands. AreCommands forms.now commands.items) }
{
    let mut commands = Vec::new(alloc);
    for form in forms {
        commands.push(command_of(alloc, form)?)?;
    }
    Ok(commands)
}

fn command_of<'a>(alloc: Global, form: &CommandForm) -> Result<Command<'a>, AllocError>
    ensures { IfOk result (IsCommandOf form.now) }
{
    let args = args_of(alloc, form.words)?;
    let command = Command::new(alloc, form.name)
        .about(form.about)
        .after_help(form.end)
        .args(args)?;
    Ok(command)
}

fn args_of<'a>(alloc: Global, words: &[Word]) -> Result<Vec<Arg<'a>>, AllocError>
    ensures { IfOk result (λ args. AreArgs words.now args.items) }
{
    let mut args = Vec::new(alloc);
    for word in words {
        args.push(arg_of(alloc, word))?;
    }
    Ok(args)
}

fn arg_of<'a>(alloc: Global, word: &Word) -> Arg<'a>
    ensures { IsArg (rule_of_word word.now) result }
{
    match word.kind {
        WordKind::Placed(parser) => placed(alloc, word, parser).required(true),
        WordKind::Optional(parser) => placed(alloc, word, parser),
        WordKind::Flag => flag(alloc, word),
        WordKind::Needed { value, parser } => named(alloc, word, value, parser, &[]).required(true),
        WordKind::Named {
            value,
            parser,
            default,
        } => named(alloc, word, value, parser, default),
    }
}

fn placed<'a>(alloc: Global, word: &Word, parser: ValueParser<'a>) -> Arg<'a>
    ensures { IsArg (rule_by (new_rule word.now.name.now) (Optional parser.entry)) result }
{
    Arg::new(alloc, word.name)
        .value_parser(parser)
        .help(word.help)
}

fn flag<'a>(alloc: Global, word: &Word) -> Arg<'a>
    ensures { IsArg (rule_by (new_rule word.now.name.now) Flag) result }
{
    Arg::new(alloc, word.name)
        .long(word.name)
        .action(ArgAction::SetTrue)
        .help(word.help)
}

fn named<'a>(
    alloc: Global,
    word: &Word,
    value: &'a str,
    parser: ValueParser<'a>,
    default: &'a [&'a str],
) -> Arg<'a>
    ensures { IsArg
        (rule_by (new_rule word.now.name.now) (Named value.entry parser.entry default.entry))
        result }
{
    Arg::new(alloc, word.name)
        .long(word.name)
        .value_name(value)
        .default_values(default)
        .value_parser(parser)
        .help(word.help)
}
