ghost use Rattle.std.specs.Prelude.{◌≡◌, codes, option_map, Some};
ghost use Rattle.clap.specs.Words.{first_of, found_of, rows_of};
ghost use Rattle.mill_command.specs.Requests.{drop_of, level_of, number_in, plan_of, request_in, request_of, rest_of, sample_of, stock_of, verify_of};

use clap::ArgMatches;

/// What the words ask for, each text as the word has it.
#[derive(Clone, Copy, Debug, PartialEq, Eq)]
pub enum Command<'a> {
    /// The verdict on the program in `file`, by the job and the part in the other two files.
    /// `workers` is how many threads share the work, from 1 to 64.
    Verify {
        job: &'a str,
        part: &'a str,
        file: &'a str,
        workers: u32,
    },
    /// The verdict on the programs that the file `list` names, which cut one stock in turn, each with
    /// its own cutter, by the job and the part in the other two files. `workers` is how many threads
    /// share the work, from 1 to 64.
    Rest {
        job: &'a str,
        part: &'a str,
        list: &'a str,
        workers: u32,
    },
    /// A program, planned by the job and the part in the first two files, and stored in the file
    /// `out`. `workers` is how many threads share the work, from 1 to 64.
    Plan {
        job: &'a str,
        part: &'a str,
        out: &'a str,
        workers: u32,
    },
    /// How far the job's cutter drops onto the part at (x, y), in millimetres as they were written.
    Drop {
        job: &'a str,
        part: &'a str,
        x: &'a str,
        y: &'a str,
    },
    /// The lines along which the job's cutter goes round the part with its tip at height z, in
    /// millimetres as it was written.
    Level {
        job: &'a str,
        part: &'a str,
        z: &'a str,
    },
    /// The stock after the moves of the program in `file`, by the job in the first file, stored as the
    /// text of a surface in the file `out`.
    Stock {
        job: &'a str,
        file: &'a str,
        out: &'a str,
    },
    /// A sample part with `size` squares along each side, from 1 to 100, planned and verified.
    /// `workers` is how many threads share the work, from 1 to 64.
    Sample {
        size: u32,
        workers: u32,
    },
}

impl<'a> Command<'a> {
    /// The command under a subcommand's name, with the values of its matches.
    pub(crate) fn from_matches(name: &str, matches: &ArgMatches<'a>) -> Option<Command<'a>>
        ensures { option_map request_of result ≡ request_in name.now (rows_of (found_of matches.now)) }
    {
        match name {
            "verify" => Command::verify_from(matches),
            "rest" => Command::rest_from(matches),
            "plan" => Command::plan_from(matches),
            "drop" => Command::drop_from(matches),
            "level" => Command::level_from(matches),
            "stock" => Command::stock_from(matches),
            "sample" => Command::sample_from(matches),
            _ => None,
        }
    }

    fn verify_from(matches: &ArgMatches<'a>) -> Option<Command<'a>>
        ensures { option_map request_of result ≡ verify_of (first_of (codes "job") (rows_of (found_of matches.now))) (first_of (codes "part") (rows_of (found_of matches.now))) (first_of (codes "file") (rows_of (found_of matches.now))) (number_in (codes "workers") (rows_of (found_of matches.now))) }
    {
        Some(Command::Verify {
            job: value(matches, "job")?,
            part: value(matches, "part")?,
            file: value(matches, "file")?,
            workers: number(matches, "workers")?,
        })
    }

    fn rest_from(matches: &ArgMatches<'a>) -> Option<Command<'a>>
        ensures { option_map request_of result ≡ rest_of (first_of (codes "job") (rows_of (found_of matches.now))) (first_of (codes "part") (rows_of (found_of matches.now))) (first_of (codes "list") (rows_of (found_of matches.now))) (number_in (codes "workers") (rows_of (found_of matches.now))) }
    {
        Some(Command::Rest {
            job: value(matches, "job")?,
            part: value(matches, "part")?,
            list: value(matches, "list")?,
            workers: number(matches, "workers")?,
        })
    }

    fn plan_from(matches: &ArgMatches<'a>) -> Option<Command<'a>>
        ensures { option_map request_of result ≡ plan_of (first_of (codes "job") (rows_of (found_of matches.now))) (first_of (codes "part") (rows_of (found_of matches.now))) (first_of (codes "out") (rows_of (found_of matches.now))) (number_in (codes "workers") (rows_of (found_of matches.now))) }
    {
        Some(Command::Plan {
            job: value(matches, "job")?,
            part: value(matches, "part")?,
            out: value(matches, "out")?,
            workers: number(matches, "workers")?,
        })
    }

    fn drop_from(matches: &ArgMatches<'a>) -> Option<Command<'a>>
        ensures { option_map request_of result ≡ drop_of (first_of (codes "job") (rows_of (found_of matches.now))) (first_of (codes "part") (rows_of (found_of matches.now))) (first_of (codes "x") (rows_of (found_of matches.now))) (first_of (codes "y") (rows_of (found_of matches.now))) }
    {
        Some(Command::Drop {
            job: value(matches, "job")?,
            part: value(matches, "part")?,
            x: value(matches, "x")?,
            y: value(matches, "y")?,
        })
    }

    fn level_from(matches: &ArgMatches<'a>) -> Option<Command<'a>>
        ensures { option_map request_of result ≡ level_of (first_of (codes "job") (rows_of (found_of matches.now))) (first_of (codes "part") (rows_of (found_of matches.now))) (first_of (codes "z") (rows_of (found_of matches.now))) }
    {
        Some(Command::Level {
            job: value(matches, "job")?,
            part: value(matches, "part")?,
            z: value(matches, "z")?,
        })
    }

    fn stock_from(matches: &ArgMatches<'a>) -> Option<Command<'a>>
        ensures { option_map request_of result ≡ stock_of (first_of (codes "job") (rows_of (found_of matches.now))) (first_of (codes "file") (rows_of (found_of matches.now))) (first_of (codes "out") (rows_of (found_of matches.now))) }
    {
        Some(Command::Stock {
            job: value(matches, "job")?,
            file: value(matches, "file")?,
            out: value(matches, "out")?,
        })
    }

    fn sample_from(matches: &ArgMatches<'a>) -> Option<Command<'a>>
        ensures { option_map request_of result ≡ sample_of (number_in (codes "n") (rows_of (found_of matches.now))) (number_in (codes "workers") (rows_of (found_of matches.now))) }
    {
        Some(Command::Sample {
            size: number(matches, "n")?,
            workers: number(matches, "workers")?,
        })
    }
}

/// The word that is the value under this id, or the first of them; none where there is none.
pub fn value<'a>(matches: &ArgMatches<'a>, id: &str) -> Option<&'a str>
    ensures { option_map (λ s. s.now) result ≡ first_of id.now (rows_of (found_of matches.now)) }
{
    matches.get_str(id)
}

/// The number that this value stands for; none where there is none, or it stands for no number of 32 bits.
pub fn number(matches: &ArgMatches<'_>, id: &str) -> Option<u32>
    ensures { result ≡ number_in id.now (rows_of (found_of matches.now)) }
{
    matches.get_one(id)
}
