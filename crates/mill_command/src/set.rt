//! The set of commands. All that words can name stands here; a new command or option is added here,
//! in `specs/Set.antt`, and where matches are read.
ghost use Rattle.std.specs.Prelude.{◌≡◌, false, IfOk, Some};
ghost use Rattle.clap.specs.Words.{App, Rule, new_app, rule_of, with_rule, with_subcommand};
ghost use Rattle.clap.specs.declared.builder.texts.Texts.TheVariants.{One};
ghost use Rattle.mill_command.specs.Set.{Is, commands, count_parser, drop as drop_command, level, option, place, plan, program, rest, sample, size, size_parser, stock, verify, with_files, with_job, with_others, with_parts, with_programs, with_verdicts, workers};

use clap::builder::ValueParser;
use clap::{Arg, Command, value_parser};
use std::alloc::{AllocError, Global};

/// The version of the programs, which `--version` shows.
pub const VERSION: &str = "0.2.0";

/// The program with all its commands, ready to be built by a parse.
pub fn commands<'a>(alloc: Global) -> Result<Command<'a>, AllocError>
    ensures { IfOk result (Is commands) }
{
    let program = with_programs(alloc, program(alloc)?)?;
    let program = with_parts(alloc, program)?;
    with_others(alloc, program)
}

/// The program with the commands that judge programs.
// The commands are added by twos, since each that may fail costs a proof that all before it are dropped.
fn with_verdicts<'a>(alloc: Global, program: Command<'a>) -> Result<Command<'a>, AllocError>
    ensures { IfOk result (λ c. (a : App) → Is a program.entry → Is (with_verdicts a) c) }
{
    let program = with_command(program, verify(alloc)?)?;
    with_command(program, rest(alloc)?)
}

/// The program with all commands on programs.
fn with_programs<'a>(alloc: Global, program: Command<'a>) -> Result<Command<'a>, AllocError>
    ensures { IfOk result (λ c. (a : App) → Is a program.entry → Is (with_programs a) c) }
{
    let program = with_verdicts(alloc, program)?;
    with_command(program, plan(alloc)?)
}

/// The program with the commands on a part.
fn with_parts<'a>(alloc: Global, program: Command<'a>) -> Result<Command<'a>, AllocError>
    ensures { IfOk result (λ c. (a : App) → Is a program.entry → Is (with_parts a) c) }
{
    let program = with_command(program, drop_height(alloc)?)?;
    with_command(program, level(alloc)?)
}

/// The program with the other commands.
fn with_others<'a>(alloc: Global, program: Command<'a>) -> Result<Command<'a>, AllocError>
    ensures { IfOk result (λ c. (a : App) → Is a program.entry → Is (with_others a) c) }
{
    let program = with_command(program, stock(alloc)?)?;
    with_command(program, sample(alloc)?)
}

// `bin_name` is for the usage lines, which else lack the program's name.
fn program<'a>(alloc: Global) -> Result<Command<'a>, AllocError>
    ensures { IfOk result (Is program) }
{
    Command::new(alloc, "camtool")
        .about("Verifies and plans programs for three-axis mills, by a part, a cutter and a stock")
        .version(VERSION)
        .no_binary_name(true)
        .subcommand_required(true)
        .bin_name("camtool")
}

/// `verify JOB PART FILE`, with how many workers.
fn verify<'a>(alloc: Global) -> Result<Command<'a>, AllocError>
    ensures { IfOk result (Is verify) }
{
    let command = with_files(alloc, "verify", "Verifies a program against the part")?;
    with_arg(
        command,
        place(alloc, "file", "FILE", "The program's file, RS274/NGC"),
    )
}

/// `rest JOB PART LIST`, with how many workers.
fn rest<'a>(alloc: Global) -> Result<Command<'a>, AllocError>
    ensures { IfOk result (Is rest) }
{
    let command = with_files(
        alloc,
        "rest",
        "Verifies programs that cut one stock in turn, each with its own cutter",
    )?;
    with_arg(
        command,
        place(
            alloc,
            "list",
            "LIST",
            "The list of programs and their cutters, TOML",
        ),
    )
}

/// `plan JOB PART OUT`, with how many workers.
fn plan<'a>(alloc: Global) -> Result<Command<'a>, AllocError>
    ensures { IfOk result (Is plan) }
{
    let command = with_files(alloc, "plan", "Plans a program for the part, and stores it")?;
    with_arg(
        command,
        place(
            alloc,
            "out",
            "OUT",
            "The file that the program is stored in, RS274/NGC",
        ),
    )
}

/// `drop JOB PART --x=X --y=Y`, with how many workers.
fn drop_height<'a>(alloc: Global) -> Result<Command<'a>, AllocError>
    ensures { IfOk result (Is drop_command) }
{
    let command = with_files(
        alloc,
        "drop",
        "Tells how low the cutter comes at one place before it touches the part",
    )?;
    let command = with_arg(
        command,
        option(alloc, "x", "X", "The place's x in mm, as in --x=-1.5"),
    )?;
    with_arg(command, option(alloc, "y", "Y", "The place's y in mm"))
}

/// `level JOB PART --z=Z`, with how many workers.
fn level<'a>(alloc: Global) -> Result<Command<'a>, AllocError>
    ensures { IfOk result (Is level) }
{
    let command = with_files(
        alloc,
        "level",
        "Prints the lines along which the cutter goes round the part at one height",
    )?;
    with_arg(
        command,
        option(alloc, "z", "Z", "The height in mm, as in --z=-1.5"),
    )
}

/// `stock JOB FILE OUT`, with how many workers.
fn stock<'a>(alloc: Global) -> Result<Command<'a>, AllocError>
    ensures { IfOk result (Is stock) }
{
    let command = with_job(
        alloc,
        "stock",
        "Stores what a program leaves of the stock, as a surface to look at",
    )?;
    let command = with_arg(
        command,
        place(alloc, "file", "FILE", "The program's file, RS274/NGC"),
    )?;
    with_arg(
        command,
        place(
            alloc,
            "out",
            "OUT",
            "The file that the stock is stored in, ASCII STL",
        ),
    )
}

/// `sample N`, with how many workers.
fn sample<'a>(alloc: Global) -> Result<Command<'a>, AllocError>
    ensures { IfOk result (Is sample) }
{
    let command = command(
        alloc,
        "sample",
        "Plans a sample part, verifies the program, and prints its numbers",
    );
    let command = with_arg(command, workers(alloc))?;
    with_arg(command, size(alloc))
}

/// A command whose first word is the job's file, and that takes how many workers.
fn with_job<'a>(
    alloc: Global,
    name: &'static str,
    about: &'static str,
) -> Result<Command<'a>, AllocError>
    ensures { IfOk result (Is (with_job name.entry.now)) }
{
    let command = with_arg(command(alloc, name, about), workers(alloc))?;
    with_arg(command, place(alloc, "job", "JOB", "The job's file, TOML"))
}

/// A command whose first two words are the job's and the part's file, and that takes how many
/// workers.
fn with_files<'a>(
    alloc: Global,
    name: &'static str,
    about: &'static str,
) -> Result<Command<'a>, AllocError>
    ensures { IfOk result (Is (with_files name.entry.now)) }
{
    let command = with_job(alloc, name, about)?;
    with_arg(
        command,
        place(alloc, "part", "PART", "The part's file, ASCII STL"),
    )
}

/// A command without words.
fn command<'a>(alloc: Global, name: &'static str, about: &'static str) -> Command<'a>
    ensures { Is (new_app name.entry.now) result }
{
    Command::new(alloc, name).about(about)
}

/// A word that must stand at its place. Its value is under this id; help calls it by this name, with this text.
pub fn place<'a>(alloc: Global, id: &'static str, name: &'static str, help: &'static str) -> Arg<'a>
    ensures rule { (rule_of result ≡ place id.entry.now) × (result.global ≡ false) }
    ensures shown { (result.val_names ≡ One name.entry) × (result.help ≡ Some help.entry) }
{
    Arg::new(alloc, id)
        .required(true)
        .value_name(name)
        .help(help)
}

/// An option that must be there, with its value.
fn option<'a>(alloc: Global, id: &'static str, name: &'static str, help: &'static str) -> Arg<'a>
    ensures { (rule_of result ≡ option id.entry.now) × (result.global ≡ false) }
{
    place(alloc, id, name, help).long(id)
}

/// The size of a sample part, which must stand at its place.
fn size<'a>(alloc: Global) -> Arg<'a>
    ensures { (rule_of result ≡ size) × (result.global ≡ false) }
{
    place(
        alloc,
        "n",
        "N",
        "How many squares the part has along each side, from 1 to 100",
    )
    .value_parser(size_parser())
}

/// `--workers=W`, a number from 1 to 64, which is 1 where it is left out. Its value is under the id
/// `workers`.
pub fn workers<'a>(alloc: Global) -> Arg<'a>
    ensures { (rule_of result ≡ workers) × (result.global ≡ false) }
{
    Arg::new(alloc, "workers")
        .long("workers")
        .value_parser(count_parser())
        .default_value("1")
        .value_name("W")
        .help("How many threads share the work, from 1 to 64")
}

/// How many workers there can be.
fn count_parser<'a>() -> ValueParser<'a>
    ensures { result ≡ count_parser }
{
    value_parser!(u32).range(1..=64)
}

/// How large a sample part can be.
fn size_parser<'a>() -> ValueParser<'a>
    ensures { result ≡ size_parser }
{
    value_parser!(u32).range(1..=100)
}

/// The command with one more argument, which isn't one that subcommands take too.
///
/// The only error is want of memory.
pub fn with_arg<'a>(command: Command<'a>, arg: Arg<'a>) -> Result<Command<'a>, AllocError>
    requires { arg.global ≡ false }
    ensures { IfOk result (λ c. (a : App) (r : Rule) → Is a command.entry → rule_of arg.entry ≡ r → Is (with_rule a r) c) }
{
    command.arg(arg)
}

/// The program with one more command.
fn with_command<'a>(program: Command<'a>, command: Command<'a>) -> Result<Command<'a>, AllocError>
    ensures { IfOk result (λ c. (a : App) (b : App) → Is a program.entry → Is b command.entry → Is (with_subcommand a b.top) c) }
{
    program.subcommand(command)
}
