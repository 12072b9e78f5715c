//! The line of what the grammar matched. The grammar lets no line through that lacks a value, so
//! each is there, but for places, which are read here.
ghost use Rattle.std.specs.Prelude.{◌≡◌, ◌≤◌, ◌∷◌, [], Some, true, IfOk, IfErr, codes, is_some};
ghost use Rattle.std.specs.Prelude.{map};
ghost use Rattle.std.specs.Prelude.{option_map};
ghost use Rattle.std.specs.List.{AllZip};
ghost use Rattle.clap.specs.Words.{first_of, one_of, subcommand_rows_of};
ghost use Rattle.request.specs.Arguments.{ANumber, HasValue, Files as files_named, SomeTexts};
ghost use Rattle.request.specs.Arguments.{flag_word, given_texts};
ghost use Rattle.request.specs.Grammar.{identifiers, losses, size_arguments};
ghost use Rattle.request.specs.Narrow.{IsNarrow};
ghost use Rattle.request.specs.Places.{AreRanges};
ghost use Rattle.request.specs.Requests.{whose, size_values, TellsPlaces};
ghost use Rattle.request.specs.Matching.{AreGiven, Gives, IsAsked, IsGiven, IsMatch, IsOrder};
ghost use Rattle.request.specs.Matching.{AreRefused, IsFlagGiven, IsOrderTold, IsTold, IsUnasked};
ghost use Rattle.request.specs.Matching.{IsUndropped, Reads, rows_in};

use crate::places::place_range;
use crate::requests::{
    CertifyRequest, CheckRequest, CommandLine, ConvertRequest, DecodeRequest, DropRequest,
    EncodeRequest, FollowRequest, JoinRequest, Output, Request, SalvageRequest, Sending,
    ShowRequest, Sizes, TwinRequest,
};
use crate::usage::{PlacesRefusal, Usage};
use clap::ArgMatches;
use partition::Order;
use reception::Identity;
use session::PlaceRange;
use std::alloc::{AllocError, Global};
use std::str::FromStr;

// The text of an argument.
fn text<'a>(matches: &ArgMatches<'a>, name: &str) -> &'a str
    requires { is_some (first_of name.now (rows_in matches.now)) ≡ true }
    ensures { first_of name.now (rows_in matches.now) ≡ Some result.now }
{
    matches.get_str(name).unwrap()
}

// The text of an argument that may be left out.
fn given_text<'a>(matches: &ArgMatches<'a>, name: &str) -> Option<&'a str>
    ensures { first_of name.now (rows_in matches.now) ≡ option_map (λ text. text.now) result }
{
    matches.get_str(name)
}

// The number of an option.
fn number<T: FromStr>(matches: &ArgMatches<'_>, name: &str) -> T
where
    T::Err: Drop,
    requires { Reads T.from_str_gives (one_of name.now (rows_in matches.now)) }
    ensures { Gives T.from_str_gives (one_of name.now (rows_in matches.now)) result }
{
    matches.get_one::<T>(name).unwrap()
}

// Whose packets are asked for, or are sent.
fn identity(matches: &ArgMatches<'_>) -> Identity
    requires { AreGiven (rows_in matches.now) identifiers }
    ensures values { AllZip (HasValue (rows_in matches.now)) identifiers
        (whose result) }
    ensures narrow { IsNarrow result }
{
    Identity {
        tsi: u64::from(number::<u32>(matches, "tsi")),
        toi: u128::from(number::<u32>(matches, "toi")),
    }
}

// The numbers of an FTI, each in its range.
fn sizes(matches: &ArgMatches<'_>) -> Sizes
    requires { AreGiven (rows_in matches.now) size_arguments }
    ensures { AllZip (HasValue (rows_in matches.now)) size_arguments (size_values result) }
{
    Sizes {
        symbol: number::<u16>(matches, "symbol"),
        block: number::<u8>(matches, "block"),
        max_n: number::<u8>(matches, "max"),
    }
}

// How many losses are to be borne: the margin and the burst.
fn losses(matches: &ArgMatches<'_>) -> (u32, u32)
    requires { AreGiven (rows_in matches.now) losses }
    ensures { AllZip (HasValue (rows_in matches.now)) losses
        (ANumber result.0 ∷ ANumber result.1 ∷ []) }
{
    let margin = number::<u32>(matches, "margin");
    (margin, number::<u32>(matches, "burst"))
}

// In which order the encoding symbols are sent.
fn order(matches: &ArgMatches<'_>) -> Order
    requires { IsOrderTold (rows_in matches.now) }
    ensures { IsOrder (rows_in matches.now) result }
{
    match text(matches, "order") {
        "blocks" => Order::Blocks,
        "rounds" => Order::Rounds,
        _ => unreachable!(),
    }
}

// The places that the texts of PLACE tell.
fn places<'a>(alloc: Global, matches: &ArgMatches<'a>) -> Result<Vec<PlaceRange>, Usage<'a>>
    ensures ok { IfOk result (λ v.
        AreRanges (given_texts (codes "PLACE") (rows_in matches.now)) v.items) }
    ensures fault { IfErr result
        (AreRefused (given_texts (codes "PLACE") (rows_in matches.now))) }
{
    match matches.get_strs("PLACE") {
        Some(texts) => read_places(alloc, texts),
        None => Ok(Vec::new(alloc)),
    }
}

fn read_places<'a>(alloc: Global, texts: &[&'a str]) -> Result<Vec<PlaceRange>, Usage<'a>>
    ensures ok { IfOk result (λ v. AreRanges (map (λ text. text.now) texts.now) v.items) }
    ensures fault { IfErr result (AreRefused (map (λ text. text.now) texts.now)) }
{
    let mut places = Vec::new(alloc);
    for text in texts {
        let Some(range) = place_range(*text) else {
            return Err(Usage::Places(PlacesRefusal::Word(*text)));
        };
        let Ok(()) = places.push(range) else {
            return Err(Usage::NoMemory);
        };
    }
    Ok(places)
}

// The values of SESSION.
fn sessions<'a>(alloc: Global, matches: &ArgMatches<'a>) -> Result<Vec<&'a str>, AllocError>
    requires { IsGiven (rows_in matches.now) (files_named (codes "SESSION")) }
    ensures { IfOk result (λ sessions. HasValue (rows_in matches.now)
        (files_named (codes "SESSION"))
        (SomeTexts (map (λ session. session.now) sessions.items))) }
{
    matches.get_strs("SESSION").unwrap().to_vec(alloc)
}

// Whether the flag was given.
fn flag(matches: &ArgMatches<'_>, name: &str) -> bool
    requires { IsFlagGiven name.now (rows_in matches.now) }
    ensures { first_of name.now (rows_in matches.now) ≡ Some (flag_word result) }
{
    text(matches, name) == "true"
}

// The file to write.
fn output<'a>(matches: &ArgMatches<'a>) -> Output<'a>
    requires name { is_some (first_of (codes "OUT") (rows_in matches.now)) ≡ true }
    requires flag { IsFlagGiven (codes "no-clobber") (rows_in matches.now) }
    ensures name { first_of (codes "OUT") (rows_in matches.now) ≡ Some result.name.now }
    ensures flag { first_of (codes "no-clobber") (rows_in matches.now)
        ≡ Some (flag_word result.no_clobber) }
{
    Output {
        name: text(matches, "OUT"),
        no_clobber: flag(matches, "no-clobber"),
    }
}

// The line with this request.
fn line<'a>(matches: &ArgMatches<'a>, request: Request<'a>) -> CommandLine<'a>
    requires { IsFlagGiven (codes "quiet") (rows_in matches.now) }
    ensures request { result.request ≡ request.entry }
    ensures flag { first_of (codes "quiet") (rows_in matches.now)
        ≡ Some (flag_word result.quiet) }
{
    CommandLine {
        request,
        quiet: flag(matches, "quiet"),
    }
}

fn encode_line<'a>(matches: &ArgMatches<'a>) -> CommandLine<'a>
    requires { IsTold (Some (codes "encode", rows_in matches.now)) }
    ensures { IsAsked (codes "encode") (rows_in matches.now) result }
{
    line(
        matches,
        Request::Encode(EncodeRequest {
            object: text(matches, "OBJECT"),
            output: output(matches),
            sending: Sending {
                identity: identity(matches),
                sizes: sizes(matches),
                fti_every: number::<u8>(matches, "fti-every"),
                order: order(matches),
            },
        }),
    )
}

fn certify_line<'a>(matches: &ArgMatches<'a>) -> CommandLine<'a>
    requires { IsTold (Some (codes "certify", rows_in matches.now)) }
    ensures { IsAsked (codes "certify") (rows_in matches.now) result }
{
    line(
        matches,
        Request::Certify(CertifyRequest {
            object: text(matches, "OBJECT"),
            output: output(matches),
            identity: identity(matches),
            sizes: sizes(matches),
        }),
    )
}

fn convert_line<'a>(matches: &ArgMatches<'a>) -> CommandLine<'a>
    requires { IsTold (Some (codes "convert", rows_in matches.now)) }
    ensures { IsAsked (codes "convert") (rows_in matches.now) result }
{
    line(
        matches,
        Request::Convert(ConvertRequest {
            certificate: text(matches, "IN"),
            output: output(matches),
            identity: identity(matches),
        }),
    )
}

fn check_line<'a>(matches: &ArgMatches<'a>) -> CommandLine<'a>
    requires { IsTold (Some (codes "check", rows_in matches.now)) }
    ensures { IsAsked (codes "check") (rows_in matches.now) result }
{
    let (margin, burst) = losses(matches);
    line(
        matches,
        Request::Check(CheckRequest {
            session: text(matches, "SESSION"),
            object: text(matches, "OBJECT"),
            certificate: text(matches, "CERT"),
            identity: identity(matches),
            picture: given_text(matches, "picture"),
            summary: flag(matches, "summary"),
            margin,
            burst,
            no_clobber: flag(matches, "no-clobber"),
        }),
    )
}

fn drop_line<'a>(alloc: Global, matches: &ArgMatches<'a>) -> Result<CommandLine<'a>, Usage<'a>>
    requires { IsTold (Some (codes "drop", rows_in matches.now)) }
    ensures asked { IfOk result (IsAsked (codes "drop") (rows_in matches.now)) }
    ensures places { IfOk result (λ line. TellsPlaces line.request) }
    ensures fault { IfErr result (IsUndropped (rows_in matches.now)) }
{
    let places = places(alloc, matches)?;
    let places_file = given_text(matches, "places");
    if places.is_empty() && places_file.is_none() {
        return Err(Usage::Places(PlacesRefusal::Missing));
    }
    Ok(line(
        matches,
        Request::Drop(DropRequest {
            session: text(matches, "SESSION"),
            output: output(matches),
            places,
            places_file,
        }),
    ))
}

fn salvage_line<'a>(matches: &ArgMatches<'a>) -> CommandLine<'a>
    requires { IsTold (Some (codes "salvage", rows_in matches.now)) }
    ensures { IsAsked (codes "salvage") (rows_in matches.now) result }
{
    line(
        matches,
        Request::Salvage(SalvageRequest {
            session: text(matches, "SESSION"),
            output: output(matches),
        }),
    )
}

fn join_line<'a>(alloc: Global, matches: &ArgMatches<'a>) -> Result<CommandLine<'a>, AllocError>
    requires { IsTold (Some (codes "join", rows_in matches.now)) }
    ensures { IfOk result (IsAsked (codes "join") (rows_in matches.now)) }
{
    Ok(line(
        matches,
        Request::Join(JoinRequest {
            output: output(matches),
            sessions: sessions(alloc, matches)?,
            turns: flag(matches, "turns"),
        }),
    ))
}

fn decode_line<'a>(matches: &ArgMatches<'a>) -> CommandLine<'a>
    requires { IsTold (Some (codes "decode", rows_in matches.now)) }
    ensures { IsAsked (codes "decode") (rows_in matches.now) result }
{
    line(
        matches,
        Request::Decode(DecodeRequest {
            session: text(matches, "SESSION"),
            output: output(matches),
            identity: identity(matches),
        }),
    )
}

fn follow_line<'a>(matches: &ArgMatches<'a>) -> CommandLine<'a>
    requires { IsTold (Some (codes "follow", rows_in matches.now)) }
    ensures { IsAsked (codes "follow") (rows_in matches.now) result }
{
    line(
        matches,
        Request::Follow(FollowRequest {
            session: text(matches, "SESSION"),
            output: output(matches),
            identity: identity(matches),
        }),
    )
}

fn twin_line<'a>(matches: &ArgMatches<'a>) -> CommandLine<'a>
    requires { IsTold (Some (codes "twin", rows_in matches.now)) }
    ensures { IsAsked (codes "twin") (rows_in matches.now) result }
{
    line(
        matches,
        Request::Twin(TwinRequest {
            session: text(matches, "SESSION"),
            object: text(matches, "OBJECT"),
            certificate: text(matches, "CERT"),
            output: output(matches),
            identity: identity(matches),
        }),
    )
}

fn show_line<'a>(matches: &ArgMatches<'a>) -> CommandLine<'a>
    requires { IsTold (Some (codes "show", rows_in matches.now)) }
    ensures { IsAsked (codes "show") (rows_in matches.now) result }
{
    line(
        matches,
        Request::Show(ShowRequest {
            session: text(matches, "SESSION"),
            summary: flag(matches, "summary"),
        }),
    )
}

// The line of a command of this name.
fn named_line<'a>(
    alloc: Global,
    name: &str,
    matches: &ArgMatches<'a>,
) -> Result<CommandLine<'a>, Usage<'a>>
    requires { IsTold (Some (name.now, rows_in matches.now)) }
    ensures asked { IfOk result (IsAsked name.now (rows_in matches.now)) }
    ensures places { IfOk result (λ line. TellsPlaces line.request) }
    ensures fault { IfErr result (IsUnasked name.now (rows_in matches.now)) }
{
    Ok(match name {
        "encode" => encode_line(matches),
        "certify" => certify_line(matches),
        "convert" => convert_line(matches),
        "check" => check_line(matches),
        "drop" => drop_line(alloc, matches)?,
        "salvage" => salvage_line(matches),
        "join" => join_line(alloc, matches)?,
        "decode" => decode_line(matches),
        "follow" => follow_line(matches),
        "twin" => twin_line(matches),
        "show" => show_line(matches),
        _ => unreachable!(),
    })
}

/// The line of what the grammar matched, which has a value of each argument of its command. An
/// error is `Places` or `NoMemory`.
pub(crate) fn matched_line<'a>(
    alloc: Global,
    matches: &ArgMatches<'a>,
) -> Result<CommandLine<'a>, Usage<'a>>
    requires { IsTold (subcommand_rows_of matches.now) }
    ensures { IsMatch (subcommand_rows_of matches.now) result }
{
    let (name, values) = matches.subcommand().unwrap();
    named_line(alloc, name, values)
}
