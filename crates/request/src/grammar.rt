//! The grammar: the commands, their arguments and their help.
ghost use Rattle.std.specs.Prelude.{◌≡◌, map, false, IfOk};
ghost use Rattle.clap.specs.Words.{rule_of};
ghost use Rattle.request.specs.Arguments.{Flag as flag_named, rule_for, several as several_rule};
ghost use Rattle.request.specs.Building.{HasGrammar, IsShaped, AddsRules, AddsCommands, number_of};
ghost use Rattle.request.specs.Building.{choice_of, argument_of, rule_told, outline_shape};

use crate::help;
use crate::requests::MOST_SYMBOL_BYTES;
use clap::builder::ValueParser;
use clap::{Arg, ArgAction, Command};
use std::alloc::{AllocError, Global};

const ABOUT: &str =
    "Certifies file-delivery sessions: ALC datagrams with Reed-Solomon symbols (RFC 5510)";

// The version that `--version` tells; CHANGELOG.md has it too.
const VERSION: &str = "0.9.0";

const ORDERS: [&str; 2] = ["blocks", "rounds"];

/// An option with a whole number in a range.
struct NumberOption<'a> {
    name: &'a str,
    value_name: &'a str,
    help: &'a str,
    least: u64,
    most: u64,
    /// The number where the option is left out. Without a default it has to be given.
    default: Option<&'a str>,
}

/// An option with one of some words.
struct ChoiceOption<'a> {
    name: &'a str,
    value_name: &'a str,
    help: &'a str,
    words: &'a [&'a str],
    /// The word where the option is left out.
    default: &'a str,
}

/// An argument of a command.
enum Argument<'a> {
    /// The name of a file, which has to be given.
    File {
        name: &'a str,
        help: &'a str,
    },
    /// `--name N`.
    Number(NumberOption<'a>),
    /// `--name WORD`.
    Choice(ChoiceOption<'a>),
    /// Places and ranges of them, which may be left out.
    Places {
        name: &'a str,
        help: &'a str,
    },
    /// The names of one file or more.
    Files {
        name: &'a str,
        help: &'a str,
    },
    /// `--name`, which takes no value, and may have a letter, too.
    Flag {
        name: &'a str,
        short: Option<char>,
        help: &'a str,
    },
    /// `--name FILE`, which may be left out.
    FileOption {
        name: &'a str,
        value_name: &'a str,
        help: &'a str,
    },
}

const SESSION: Argument<'static> = Argument::File {
    name: "SESSION",
    help: "The session file: each datagram after its length in two bytes",
};

const CARRIED_OBJECT: Argument<'static> = Argument::File {
    name: "OBJECT",
    help: "The object: the file that the session is to carry",
};

const CERTIFICATE: Argument<'static> = Argument::File {
    name: "CERT",
    help: "The certificate of the object, as `alcrs certify` writes it",
};

const SESSION_TO_WRITE: Argument<'static> = Argument::File {
    name: "OUT",
    help: "The session file to write",
};

const CERTIFICATE_TO_WRITE: Argument<'static> = Argument::File {
    name: "OUT",
    help: "The certificate to write",
};

const OBJECT_TO_WRITE: Argument<'static> = Argument::File {
    name: "OUT",
    help: "The file to write the object to",
};

const TSI: Argument<'static> = Argument::Number(NumberOption {
    name: "tsi",
    value_name: "N",
    help: "The transport session identifier (TSI), 0 to 4294967295",
    least: 0,
    most: 4_294_967_295,
    default: None,
});

const TOI: Argument<'static> = Argument::Number(NumberOption {
    name: "toi",
    value_name: "N",
    help: "The transport object identifier (TOI), 0 to 4294967295",
    least: 0,
    most: 4_294_967_295,
    default: None,
});

const SYMBOL: Argument<'static> = Argument::Number(NumberOption {
    name: "symbol",
    value_name: "N",
    help: "The length of an encoding symbol in bytes, 1 to 65475",
    least: 1,
    most: MOST_SYMBOL_BYTES as u64,
    default: None,
});

const BLOCK: Argument<'static> = Argument::Number(NumberOption {
    name: "block",
    value_name: "N",
    help: "The most source symbols of a block, 1 to 255",
    least: 1,
    most: 255,
    default: None,
});

const MAX: Argument<'static> = Argument::Number(NumberOption {
    name: "max",
    value_name: "N",
    help: "The most encoding symbols of a block, 1 to 255, and not below --block",
    least: 1,
    most: 255,
    default: None,
});

const PICTURE: Argument<'static> = Argument::FileOption {
    name: "picture",
    value_name: "OUT",
    help: "The SVG file to draw a yes to: symbols to spare, bursts that may be missed",
};

const SUMMARY: Argument<'static> = Argument::Flag {
    name: "summary",
    short: None,
    help: "Prints few lines at a yes: the weakest block, not all blocks",
};

const MARGIN: Argument<'static> = Argument::Number(NumberOption {
    name: "margin",
    value_name: "N",
    help: "Ends with status 3 at a yes if fewer than N datagrams may be missed",
    least: 0,
    most: 4_294_967_295,
    default: Some("0"),
});

const BURST: Argument<'static> = Argument::Number(NumberOption {
    name: "burst",
    value_name: "N",
    help: "Ends with status 3 at a yes if fewer than N neighbouring datagrams may be missed",
    least: 0,
    most: 4_294_967_295,
    default: Some("0"),
});

const SHOWN_SUMMARY: Argument<'static> = Argument::Flag {
    name: "summary",
    short: None,
    help: "Prints a few lines for each TSI and TOI, not one for each datagram",
};

const QUIET: Argument<'static> = Argument::Flag {
    name: "quiet",
    short: Some('q'),
    help: "Leaves out the sentences on standard error",
};

const NO_CLOBBER: Argument<'static> = Argument::Flag {
    name: "no-clobber",
    short: Some('n'),
    help: "Keeps a file that is there under the name of OUT, and fails",
};

/// A command: its name, its help and its arguments, in their order.
struct Outline<'a> {
    name: &'a str,
    about: &'a str,
    after_help: &'a str,
    arguments: &'a [Argument<'a>],
}

const OUTLINES: [Outline<'static>; 11] = [
    Outline {
        name: "encode",
        about: "Writes the session of an object: every encoding symbol of every block once",
        after_help: help::ENCODE,
        arguments: &[
            Argument::File {
                name: "OBJECT",
                help: "The file to send",
            },
            SESSION_TO_WRITE,
            TSI,
            TOI,
            SYMBOL,
            BLOCK,
            MAX,
            Argument::Number(NumberOption {
                name: "fti-every",
                value_name: "M",
                help: "Every M-th datagram has the FTI, from the first on; 1 to 255",
                least: 1,
                most: 255,
                default: Some("1"),
            }),
            Argument::Choice(ChoiceOption {
                name: "order",
                value_name: "ORDER",
                help: "The order of the symbols",
                words: &ORDERS,
                default: "blocks",
            }),
            NO_CLOBBER,
            QUIET,
        ],
    },
    Outline {
        name: "certify",
        about: "Writes the certificate of an object, for the datagrams of a TSI and TOI",
        after_help: help::CERTIFY,
        arguments: &[
            Argument::File {
                name: "OBJECT",
                help: "The file to certify",
            },
            CERTIFICATE_TO_WRITE,
            TSI,
            TOI,
            SYMBOL,
            BLOCK,
            MAX,
            NO_CLOBBER,
            QUIET,
        ],
    },
    Outline {
        name: "convert",
        about: "Writes a certificate anew, as RSC2, for the datagrams of a TSI and TOI",
        after_help: help::CONVERT,
        arguments: &[
            Argument::File {
                name: "IN",
                help: "The certificate to read",
            },
            CERTIFICATE_TO_WRITE,
            TSI,
            TOI,
            NO_CLOBBER,
            QUIET,
        ],
    },
    Outline {
        name: "check",
        about: "Says whether a session carries an object, and how many datagrams may be missed",
        after_help: help::CHECK,
        arguments: &[
            SESSION,
            CARRIED_OBJECT,
            CERTIFICATE,
            TSI,
            TOI,
            PICTURE,
            SUMMARY,
            MARGIN,
            BURST,
            NO_CLOBBER,
            QUIET,
        ],
    },
    Outline {
        name: "drop",
        about: "Writes a session without the datagrams at some places",
        after_help: help::DROP,
        arguments: &[
            SESSION,
            SESSION_TO_WRITE,
            Argument::Places {
                name: "PLACE",
                help: "Places to leave out, counted from 0: N, or a range N-M; 0 to 4294967295",
            },
            Argument::FileOption {
                name: "places",
                value_name: "FILE",
                help: "A file of places to leave out, written as PLACE is",
            },
            NO_CLOBBER,
            QUIET,
        ],
    },
    Outline {
        name: "salvage",
        about: "Writes a session up to the place where it is cut or broken",
        after_help: help::SALVAGE,
        arguments: &[SESSION, SESSION_TO_WRITE, NO_CLOBBER, QUIET],
    },
    Outline {
        name: "join",
        about: "Writes the datagrams of several sessions as one session",
        after_help: help::JOIN,
        arguments: &[
            SESSION_TO_WRITE,
            Argument::Files {
                name: "SESSION",
                help: "The session files to join, in this order; a file may be named several times",
            },
            Argument::Flag {
                name: "turns",
                short: None,
                help: "One datagram of each session in turn, not one session after the other",
            },
            NO_CLOBBER,
            QUIET,
        ],
    },
    Outline {
        name: "decode",
        about: "Writes the object that the datagrams of a session give",
        after_help: help::DECODE,
        arguments: &[SESSION, OBJECT_TO_WRITE, TSI, TOI, NO_CLOBBER, QUIET],
    },
    Outline {
        name: "follow",
        about: "Takes datagrams one by one, as they come, and writes the object once they give it",
        after_help: help::FOLLOW,
        arguments: &[SESSION, OBJECT_TO_WRITE, TSI, TOI, NO_CLOBBER, QUIET],
    },
    Outline {
        name: "twin",
        about: "Writes another object that fits the datagrams, if a block has too few symbols",
        after_help: help::TWIN,
        arguments: &[
            SESSION,
            CARRIED_OBJECT,
            CERTIFICATE,
            Argument::File {
                name: "OUT",
                help: "The file to write the other object to",
            },
            TSI,
            TOI,
            NO_CLOBBER,
            QUIET,
        ],
    },
    Outline {
        name: "show",
        about: "Prints a line for each datagram of a session",
        after_help: help::SHOW,
        arguments: &[SESSION, SHOWN_SUMMARY, QUIET],
    },
];

fn number<'a>(alloc: Global, option: &NumberOption<'a>) -> Arg<'a>
    ensures rule { rule_of result ≡ rule_for (number_of option.now) }
    ensures local { result.global ≡ false }
{
    let argument = Arg::new(alloc, option.name)
        .long(option.name)
        .value_name(option.value_name)
        .value_parser(ValueParser::unsigned(option.least, option.most))
        .help(option.help);
    match option.default {
        Some(default) => argument.default_value(default),
        None => argument.required(true),
    }
}

fn choice<'a>(alloc: Global, option: &ChoiceOption<'a>) -> Arg<'a>
    ensures rule { rule_of result ≡ rule_for (choice_of option.now) }
    ensures local { result.global ≡ false }
{
    Arg::new(alloc, option.name)
        .long(option.name)
        .value_name(option.value_name)
        .value_parser(option.words)
        .default_value(option.default)
        .help(option.help)
}

// An argument that may be given several times.
fn several<'a>(alloc: Global, name: &'a str, help: &'a str) -> Arg<'a>
    ensures rule { rule_of result ≡ several_rule name.now }
    ensures local { result.global ≡ false }
{
    Arg::new(alloc, name).num_args(1usize..).help(help)
}

fn flag<'a>(alloc: Global, name: &'a str, short: Option<char>, help: &'a str) -> Arg<'a>
    ensures rule { rule_of result ≡ rule_for (flag_named name.now short) }
    ensures local { result.global ≡ false }
{
    let argument = Arg::new(alloc, name)
        .long(name)
        .action(ArgAction::SetTrue)
        .help(help);
    match short {
        Some(letter) => argument.short(letter),
        None => argument,
    }
}

fn clap_argument<'a>(alloc: Global, argument: &Argument<'a>) -> Arg<'a>
    ensures rule { rule_of result ≡ rule_told argument.now }
    ensures local { result.global ≡ false }
{
    match argument {
        Argument::File { name, help } => Arg::new(alloc, *name).required(true).help(*help),
        Argument::Number(option) => number(alloc, option),
        Argument::Choice(option) => choice(alloc, option),
        Argument::Places { name, help } => several(alloc, *name, *help),
        Argument::Files { name, help } => several(alloc, *name, *help).required(true),
        Argument::Flag { name, short, help } => flag(alloc, *name, *short, *help),
        Argument::FileOption {
            name,
            value_name,
            help,
        } => Arg::new(alloc, *name)
            .long(*name)
            .value_name(*value_name)
            .help(*help),
    }
}

// The command with these arguments last, in this order.
#[tactic(auto, using(crate::proofs::Rules::no_rules))]
fn with_arguments<'a>(
    alloc: Global,
    command: Command<'a>,
    arguments: &[Argument<'a>],
) -> Result<Command<'a>, AllocError>
    ensures { IfOk result (AddsRules command.entry (map rule_told arguments.now)) }
{
    let mut command = command;
    for told in arguments {
        command = command.arg(clap_argument(alloc, told))?;
    }
    Ok(command)
}

fn outlined<'a>(alloc: Global, outline: &Outline<'a>) -> Result<Command<'a>, AllocError>
    ensures { IfOk result (IsShaped (outline_shape outline.now)) }
{
    let command = Command::new(alloc, outline.name)
        .about(outline.about)
        .after_long_help(outline.after_help);
    with_arguments(alloc, command, outline.arguments)
}

// The parser with these commands last, in this order.
#[tactic(auto, using(crate::proofs::Rules::no_outlines))]
fn with_commands<'a>(
    alloc: Global,
    parser: Command<'a>,
    outlines: &[Outline<'a>],
) -> Result<Command<'a>, AllocError>
    ensures { IfOk result (AddsCommands parser.entry outlines.now) }
{
    let mut parser = parser;
    for outline in outlines {
        parser = parser.subcommand(outlined(alloc, outline)?)?;
    }
    Ok(parser)
}

/// The grammar of the whole command line.
pub(crate) fn grammar<'a>(alloc: Global) -> Result<Command<'a>, AllocError>
    ensures { IfOk result HasGrammar }
{
    let parser = Command::new(alloc, "alcrs")
        .version(VERSION)
        .about(ABOUT)
        .after_long_help(help::ALCRS)
        .subcommand_required(true)
        .arg_required_else_help(true);
    with_commands(alloc, parser, &OUTLINES)
}
