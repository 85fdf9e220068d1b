ghost use Rattle.std.specs.Prelude.{◌≡◌, ◌++◌, ◌∷◌, OnOk, cond, filter, List, ℕ, Option, true, false, IfOk, IfSome, Some, [], codes, fold, map, option_map, unwrap_or};
ghost use Rattle.std.specs.List.{AllByRecursion};
ghost use Rattle.clap.specs.Words.{app_of, found_of, rows_of, rule_of, with_rule};
ghost use Rattle.plain_values.specs.Name.{folded};
ghost use Rattle.fta_words.specs.Table.{all_flags, is_among};
ghost use Rattle.fta_words.specs.Words.{AreChosen, AreOptions, Given, IsNumberText, Says, is_given, option_words, reports_for, value_of};
ghost use Rattle.fta_words.specs.inner.Parsed.{StandIn, all_valued, flag_rule, options_app, valued_rule};
ghost use Rattle.fta_words.specs.inner.Reading.{HaveOptions, SaysAs};

use crate::chosen::chosen_of;
use crate::command::{Options, Paging};
use crate::form::form_in;
use crate::hours::hours_in;
use crate::kind::Kind;
use crate::number::number_said;
use crate::table::{FLAGS, VALUED, is_among, valued_of};
use clap::error::ErrorKind;
use clap::{Arg, ArgAction, ArgMatches, Command};
use plain_values::{List, Mem, Name, fold};
use std::alloc::{AllocError, Global};

/// What options say, as `clap` reads their words; none where a value has not its form.
///
/// Words that are options are never refused, so an error is want of memory.
pub(crate) fn options_said(
    alloc: Global,
    kind: Kind,
    texts: &[&str],
    reports: &[Name],
) -> Mem<Option<Options>>
    requires { HaveOptions all_flags all_valued (map (λ text. text.now) texts.now) }
    ensures { (given : List Given) → map (λ text. text.now) texts.now ≡ option_words given → AreOptions all_flags all_valued given → IfOk result (SaysAs kind reports.now given) }
{
    let line = options_line(alloc)?;
    match line.try_get_matches_from(texts) {
        Ok(matches) => options_found(alloc, kind, &matches, reports),
        Err(error) => {
            let wants_memory = matches!(error.kind(), ErrorKind::OutOfMemory);
            prove!(wants_memory);
            Err(AllocError)
        }
    }
}

/// What the options say that stand in the matches.
fn options_found(
    alloc: Global,
    kind: Kind,
    matches: &ArgMatches<'_>,
    reports: &[Name],
) -> Mem<Option<Options>>
    ensures { (given : List Given) → StandIn (rows_of (found_of matches.now)) given → IfOk result (SaysAs kind reports.now given) }
{
    let Some(limit) = number_in(matches, "limit") else {
        return Ok(None);
    };
    let Some(max_order) = number_in(matches, "max-order") else {
        return Ok(None);
    };
    let Some(chosen) = chosen_in(alloc, kind, matches, reports)? else {
        return Ok(None);
    };
    let Some(form) = form_in(alloc, kind, matches)? else {
        return Ok(None);
    };
    let Some(hours) = hours_in(alloc, matches)? else {
        return Ok(None);
    };
    let after = folded_in(alloc, matches, "after")?;
    let set = text_in(alloc, matches, "set")?;
    let flags = flags_in(alloc, matches, &FLAGS)?;
    Ok(Some(Options {
        paging: Paging {
            limit,
            after,
            max_order,
        },
        set,
        hours,
        form,
        chosen,
        flags,
    }))
}

/// The number that an option says, where it is given; none where its text is none of a number.
fn number_in(matches: &ArgMatches<'_>, name: &str) -> Option<Option<u32>>
    requires { is_among all_valued name.now ≡ true }
    ensures found { (given : List Given) → StandIn (rows_of (found_of matches.now)) given → IfSome result (Says IsNumberText (value_of name.now given)) }
    ensures only { (given : List Given) → StandIn (rows_of (found_of matches.now)) given → (said : Option ℕ) → Says IsNumberText (value_of name.now given) said → result ≡ Some said }
{
    number_said(value_in(matches, name))
}

/// The text that an option says, folded, where it is given.
fn folded_in(alloc: Global, matches: &ArgMatches<'_>, name: &str) -> Mem<Option<Name>>
    requires { is_among all_valued name.now ≡ true }
    ensures { (given : List Given) → StandIn (rows_of (found_of matches.now)) given → IfOk result (λ said. said ≡ option_map folded (value_of name.now given)) }
{
    folded_said(alloc, value_in(matches, name))
}

/// A text, folded, where there is one.
fn folded_said(alloc: Global, text: Option<&[u8]>) -> Mem<Option<Name>>
    ensures { IfOk result (λ said. said ≡ option_map (λ t. folded t.now) text.entry) }
{
    match text {
        None => Ok(None),
        Some(text) => Ok(Some(fold(alloc, text)?)),
    }
}

/// The text that an option says, folded; an empty one where it is not given.
fn text_in(alloc: Global, matches: &ArgMatches<'_>, name: &str) -> Mem<Name>
    requires { is_among all_valued name.now ≡ true }
    ensures { (given : List Given) → StandIn (rows_of (found_of matches.now)) given → IfOk result (λ text. text ≡ folded (unwrap_or (value_of name.now given) [])) }
{
    text_said(alloc, value_in(matches, name))
}

/// A text, folded; an empty one where there is none.
fn text_said(alloc: Global, text: Option<&[u8]>) -> Mem<Name>
    ensures { IfOk result (λ said. said ≡ folded (unwrap_or (option_map (λ t. t.now) text.entry) [])) }
{
    match text {
        None => Ok(List::new(alloc)),
        Some(text) => fold(alloc, text),
    }
}

/// The places of the reports that `--reports` chooses; none where it names another.
fn chosen_in(
    alloc: Global,
    kind: Kind,
    matches: &ArgMatches<'_>,
    reports: &[Name],
) -> Mem<Option<List<u32>>>
    ensures found { (given : List Given) → StandIn (rows_of (found_of matches.now)) given → IfOk result (λ answer. IfSome answer (AreChosen (reports_for kind reports.now) (value_of (codes "reports") given))) }
    ensures only { (given : List Given) → StandIn (rows_of (found_of matches.now)) given → (chosen : List ℕ) → AreChosen (reports_for kind reports.now) (value_of (codes "reports") given) chosen → IfOk result (λ answer. answer ≡ Some chosen) }
{
    chosen_of(
        alloc,
        reports_for(kind, reports),
        value_in(matches, "reports"),
    )
}

/// The reports that a command may choose.
fn reports_for(kind: Kind, reports: &[Name]) -> &[Name]
    ensures { result.now ≡ reports_for kind reports.now }
{
    if is_among(valued_of(kind), b"reports") {
        reports
    } else {
        &[]
    }
}

/// The text of an option, where it is given.
pub(crate) fn value_in<'t>(matches: &ArgMatches<'t>, name: &str) -> Option<&'t [u8]>
    requires { is_among all_valued name.now ≡ true }
    ensures { (given : List Given) → StandIn (rows_of (found_of matches.now)) given → option_map (λ t. t.now) result ≡ value_of name.now given }
{
    bytes_of(matches.get_str(name))
}

fn bytes_of<'t>(text: Option<&'t str>) -> Option<&'t [u8]>
    ensures { option_map (λ bytes. bytes.now) result ≡ option_map (λ t. t.now) text.entry }
{
    match text {
        Some(text) => Some(text.as_bytes()),
        None => None,
    }
}

/// The names of those of these flags that are given.
fn flags_in(alloc: Global, matches: &ArgMatches<'_>, names: &[&'static str]) -> Mem<List<Name>>
    requires { AllByRecursion (λ name. is_among all_flags name.now ≡ true) names.now }
    ensures { (given : List Given) → StandIn (rows_of (found_of matches.now)) given → IfOk result (λ flags. flags ≡ filter (λ name. is_given name given) (map (λ name. name.now) names.now)) }
{
    let mut flags = List::new(alloc);
    for name in names {
        add_flag(alloc, matches, name, &mut flags)?;
    }
    Ok(flags)
}

/// Adds the name of a flag, where it is given.
fn add_flag(alloc: Global, matches: &ArgMatches<'_>, name: &str, flags: &mut List<Name>) -> Mem<()>
    requires { is_among all_flags name.now ≡ true }
    ensures { (given : List Given) → StandIn (rows_of (found_of matches.now)) given → OnOk result (flags.new ≡ flags.old ++ cond (is_given name.now given) (name.now ∷ []) []) }
{
    if flag_in(matches, name) {
        flags.push(List::of(Vec::from_slice(alloc, name.as_bytes())?)?)?;
    }
    Ok(())
}

/// Whether a flag is given.
fn flag_in(matches: &ArgMatches<'_>, name: &str) -> bool
    requires { is_among all_flags name.now ≡ true }
    ensures { (given : List Given) → StandIn (rows_of (found_of matches.now)) given → result ≡ is_given name.now given }
{
    matches.get_flag(name)
}

/// The command line of all options.
fn options_line<'a>(alloc: Global) -> Result<Command<'a>, AllocError>
    ensures { IfOk result (λ line. app_of line ≡ options_app) }
{
    let line = Command::new(alloc, "aadl_fta")
        .no_binary_name(true)
        .disable_help_flag(true);
    let line = with_valued(alloc, line, &VALUED)?;
    with_flags(alloc, line, &FLAGS)
}

/// The line with these options that have a value.
fn with_valued<'a>(
    alloc: Global,
    line: Command<'a>,
    names: &[&'static str],
) -> Result<Command<'a>, AllocError>
    ensures { IfOk result (λ new. app_of new ≡ fold (λ app name. with_rule app (valued_rule name)) (app_of line.entry) (map (λ name. name.now) names.now)) }
{
    let mut new = line;
    for name in names {
        new = new.arg(valued(alloc, name))?;
    }
    Ok(new)
}

/// The line with these flags.
fn with_flags<'a>(
    alloc: Global,
    line: Command<'a>,
    names: &[&'static str],
) -> Result<Command<'a>, AllocError>
    ensures { IfOk result (λ new. app_of new ≡ fold (λ app name. with_rule app (flag_rule name)) (app_of line.entry) (map (λ name. name.now) names.now)) }
{
    let mut new = line;
    for name in names {
        new = new.arg(flag(alloc, name))?;
    }
    Ok(new)
}

/// An option that has a value.
fn valued<'a>(alloc: Global, name: &'a str) -> Arg<'a>
    ensures rule { rule_of result ≡ valued_rule name.now }
    ensures local { result.global ≡ false }
{
    Arg::new(alloc, name).long(name).action(ArgAction::Set)
}

/// An option that is there or not.
fn flag<'a>(alloc: Global, name: &'a str) -> Arg<'a>
    ensures rule { rule_of result ≡ flag_rule name.now }
    ensures local { result.global ≡ false }
{
    Arg::new(alloc, name).long(name).action(ArgAction::SetTrue)
}
