//! The table of commands: what the words of each may be, and how help names it.

ghost use Rattle.std.specs.Prelude.{◌≡◌, ◌<◌, ◌↔◌, IsTrue, Contains, Some, map, option_copied, option_map, slice_get};
ghost use Rattle.fta_words.specs.declared.kind.TheConstants.{KINDS};
ghost use Rattle.fta_words.specs.declared.table.TheConstants.{ROWS};
ghost use Rattle.std.specs.List.{list_any};
ghost use Rattle.plain_values.specs.Name.{is_same_text};
ghost use Rattle.fta_words.specs.declared.kind.Kind.{Kind};
ghost use Rattle.fta_words.specs.Table.{about_of, flags_of, formats_of, is_among, kind_among, kind_named, name_of, optional_of, place_of, required_of, shape_of, usage_of, valued_of};

use crate::kind::{KINDS, Kind, Shape};
use plain_values::is_same;

/// A command: its name, what may follow it, and what help says of it in one line.
#[derive(Clone, Copy)]
pub struct Row<Text, Words> {
    /// Which command it is.
    pub kind: Kind,
    /// The first word.
    pub name: Text,
    /// Which plain words follow.
    pub shape: Shape,
    /// The options that are there or not.
    pub flags: Words,
    /// The options that have a value.
    pub valued: Words,
    /// Those of them that must be there.
    pub required: Words,
    /// The words that must be there.
    pub usage: Text,
    /// The options that may follow, each in brackets.
    pub optional: Text,
    /// What the command writes.
    pub about: Text,
}

/// Names of options.
pub type Names = &'static [&'static [u8]];

/// No names of options.
const NO_NAMES: Names = &[];

/// A row of the table.
pub type CommandRow = Row<&'static [u8], Names>;

/// The flags of all commands.
pub const FLAGS: [&'static str; 8] = [
    "tokens",
    "all",
    "text",
    "paths",
    "events",
    "tap",
    "probability",
    "sheet",
];

/// The options of all commands that have a value.
pub const VALUED: [&'static str; 10] = [
    "limit",
    "after",
    "max-order",
    "reports",
    "set",
    "format",
    "gates",
    "unrated",
    "profile",
    "hours",
];

/// The formats in which a tree of a model may be written: Galileo text, the Open-PSA Model Exchange Format, and a picture for Graphviz.
pub const FORMATS: [&'static [u8]; 3] = [b"galileo", b"mef", b"dot"];

/// The formats in which a tree that is read from a file may be written: the Open-PSA Model Exchange Format, and a picture for Graphviz.
pub const DRAWN_FORMATS: [&'static [u8]; 2] = [b"mef", b"dot"];

/// Which gates a tree has: those of the model's formulas, or merged ones.
pub const GATES: [&'static [u8]; 2] = [b"written", b"merged"];

/// What is done with an event without a rate: its probability is 1, or the tree is refused.
pub const UNRATED: [&'static [u8]; 2] = [b"1", b"refuse"];

/// The profiles by which a model, or a tree in a file, may be read.
pub const PROFILES: [&'static [u8]; 2] = [b"1", b"2"];

/// The codes of refusals, in lower case.
pub const CODES: [&'static [u8]; 66] = [
    b"l1", b"l2", b"l3", b"s1", b"n1", b"n2", b"n3", b"n4", b"n5", b"n6", b"n7", b"n8", b"n9",
    b"n10", b"n11", b"n12", b"n13", b"n14", b"n15", b"p1", b"p2", b"p3", b"p4", b"p5", b"p6",
    b"p7", b"p8", b"p9", b"p11", b"p12", b"m1", b"m2", b"m13", b"m3", b"m4", b"m5", b"m6", b"m7",
    b"m8", b"m9", b"m10", b"m11", b"m12", b"m14", b"t1", b"k1", b"k2", b"k3", b"v1", b"v2", b"v3",
    b"g1", b"g6", b"g4", b"g5", b"g2", b"g3", b"g7", b"r1", b"q1", b"q2", b"q3", b"q4", b"q5",
    b"q6", b"q7",
];

/// A row for each command, in the order of `KINDS`, which is that of help.
pub const ROWS: [CommandRow; 22] = [
    Row {
        kind: Kind::Check,
        name: b"check",
        shape: Shape::Model,
        flags: &[],
        valued: &[b"profile"],
        required: &[],
        usage: b"check ROOT FILE..",
        optional: b" [--profile 1|2]",
        about: b"the numbers of components, facts and events of a model",
    },
    Row {
        kind: Kind::Cuts,
        name: b"cuts",
        shape: Shape::Target,
        flags: &[b"tokens"],
        valued: &[b"limit", b"after", b"max-order", b"profile"],
        required: &[],
        usage: b"cuts ROOT TARGET FILE..",
        optional: b" [--limit N] [--after TOKEN] [--max-order N] [--tokens] [--profile 1|2]",
        about: b"the minimal cut sets of a target, or a page of them",
    },
    Row {
        kind: Kind::Tree,
        name: b"tree",
        shape: Shape::Target,
        flags: &[],
        valued: &[b"format", b"gates", b"unrated", b"profile"],
        required: &[],
        usage: b"tree ROOT TARGET FILE..",
        optional: b" [--format galileo|mef|dot] [--gates written|merged] [--unrated 1|refuse] [--profile 1|2]",
        about: b"the static fault tree of a target as Galileo text, Open-PSA text or a picture",
    },
    Row {
        kind: Kind::Fmea,
        name: b"fmea",
        shape: Shape::Model,
        flags: &[b"all", b"sheet"],
        valued: &[b"profile"],
        required: &[],
        usage: b"fmea ROOT FILE..",
        optional: b" [--all | --sheet] [--profile 1|2]",
        about: b"the table of the effects that each event reaches alone",
    },
    Row {
        kind: Kind::Report,
        name: b"report",
        shape: Shape::Target,
        flags: &[],
        valued: &[b"reports", b"max-order", b"profile"],
        required: &[],
        usage: b"report ROOT TARGET FILE..",
        optional: b" [--reports NAMES] [--max-order N] [--profile 1|2]",
        about: b"what reports count in the minimal cut sets of a target",
    },
    Row {
        kind: Kind::Make,
        name: b"make",
        shape: Shape::Number,
        flags: &[b"text"],
        valued: &[],
        required: &[],
        usage: b"make N",
        optional: b" [--text]",
        about: b"what is said of a model of N pairs of parts, or its text",
    },
    Row {
        kind: Kind::Galileo,
        name: b"galileo",
        shape: Shape::File,
        flags: &[b"paths", b"probability", b"events"],
        valued: &[
            b"limit",
            b"max-order",
            b"profile",
            b"format",
            b"gates",
            b"hours",
        ],
        required: &[],
        usage: b"galileo FILE",
        optional: b" [--profile 1|2] [--paths] [--limit N] [--max-order N] | --format mef|dot [--gates written|merged] | --probability [--hours T] [--events | --max-order N]",
        about: b"the minimal cut sets, or path sets, of a tree in Galileo text; the tree as Open-PSA text or a picture; or how probable its top is",
    },
    Row {
        kind: Kind::Paths,
        name: b"paths",
        shape: Shape::Target,
        flags: &[],
        valued: &[b"limit", b"after", b"max-order", b"profile"],
        required: &[],
        usage: b"paths ROOT TARGET FILE..",
        optional: b" [--limit N] [--after TOKEN] [--max-order N] [--profile 1|2]",
        about: b"the minimal path sets of a target, or a page of them",
    },
    Row {
        kind: Kind::Why,
        name: b"why",
        shape: Shape::Target,
        flags: &[],
        valued: &[b"set", b"profile"],
        required: &[b"set"],
        usage: b"why ROOT TARGET FILE.. --set TOKEN",
        optional: b" [--profile 1|2]",
        about: b"why a target holds under a set of events",
    },
    Row {
        kind: Kind::Confirm,
        name: b"confirm",
        shape: Shape::Derivation,
        flags: &[],
        valued: &[b"set", b"profile"],
        required: &[b"set"],
        usage: b"confirm ROOT TARGET DERIVATION FILE.. --set TOKEN",
        optional: b" [--profile 1|2]",
        about: b"that a text shows that",
    },
    Row {
        kind: Kind::Targets,
        name: b"targets",
        shape: Shape::Model,
        flags: &[b"all"],
        valued: &[b"profile"],
        required: &[],
        usage: b"targets ROOT FILE..",
        optional: b" [--all] [--profile 1|2]",
        about: b"the facts that may be asked as targets",
    },
    Row {
        kind: Kind::Events,
        name: b"events",
        shape: Shape::Model,
        flags: &[],
        valued: &[b"profile"],
        required: &[],
        usage: b"events ROOT FILE..",
        optional: b" [--profile 1|2]",
        about: b"the basic events, with their kinds, rates and places",
    },
    Row {
        kind: Kind::Review,
        name: b"review",
        shape: Shape::Model,
        flags: &[],
        valued: &[b"profile"],
        required: &[],
        usage: b"review ROOT FILE..",
        optional: b" [--profile 1|2]",
        about: b"what stands in a model without effect, and where its errors stop",
    },
    Row {
        kind: Kind::Place,
        name: b"place",
        shape: Shape::Place,
        flags: &[],
        valued: &[],
        required: &[],
        usage: b"place FILE BYTE",
        optional: b"",
        about: b"the line and the column of a byte, as a refusal names it",
    },
    Row {
        kind: Kind::Manifest,
        name: b"manifest",
        shape: Shape::Model,
        flags: &[],
        valued: &[b"profile"],
        required: &[],
        usage: b"manifest ROOT FILE..",
        optional: b" [--profile 1|2]",
        about: b"of which program and which files a result is, to be kept beside it",
    },
    Row {
        kind: Kind::Refusals,
        name: b"refusals",
        shape: Shape::Model,
        flags: &[],
        valued: &[b"profile"],
        required: &[],
        usage: b"refusals ROOT FILE..",
        optional: b" [--profile 1|2]",
        about: b"all that is refused of a model at once, a line each with its line and column",
    },
    Row {
        kind: Kind::Probability,
        name: b"probability",
        shape: Shape::Target,
        flags: &[b"events"],
        valued: &[b"hours", b"max-order", b"profile"],
        required: &[],
        usage: b"probability ROOT TARGET FILE..",
        optional: b" [--hours T] [--events | --max-order N] [--profile 1|2]",
        about: b"how probable a target is at least and at most, by the rates of its events",
    },
    Row {
        kind: Kind::Require,
        name: b"require",
        shape: Shape::Requirements,
        flags: &[b"tap"],
        valued: &[b"profile"],
        required: &[],
        usage: b"require ROOT REQUIREMENTS FILE..",
        optional: b" [--tap] [--profile 1|2]",
        about: b"whether a model meets requirements, each by a line; status 8 where one is not met",
    },
    Row {
        kind: Kind::Compare,
        name: b"compare",
        shape: Shape::Compared,
        flags: &[],
        valued: &[b"max-order", b"profile"],
        required: &[],
        usage: b"compare ROOT TARGET FILE.. to FILE..",
        optional: b" [--max-order N] [--profile 1|2]",
        about: b"which minimal cut sets of a target are gone in newer files, and which are new",
    },
    Row {
        kind: Kind::Explain,
        name: b"explain",
        shape: Shape::Code,
        flags: &[],
        valued: &[],
        required: &[],
        usage: b"explain CODE",
        optional: b" | CALL..",
        about: b"what a refusal says, and what to write instead; or why a call is refused",
    },
    Row {
        kind: Kind::Help,
        name: b"help",
        shape: Shape::Topic,
        flags: &[],
        valued: &[],
        required: &[],
        usage: b"help [COMMAND]",
        optional: b"",
        about: b"these lines; or the words of a command, its options and an example",
    },
    Row {
        kind: Kind::Version,
        name: b"version",
        shape: Shape::Alone,
        flags: &[],
        valued: &[],
        required: &[],
        usage: b"version",
        optional: b"",
        about: b"the versions of the program, of its profiles, and of what its commands write",
    },
];

/// The place of the row of a command.
fn place_of(kind: Kind) -> usize
    ensures { result ≡ place_of kind }
{
    kind as usize
}

/// The name of a command.
pub fn name_of(kind: Kind) -> &'static [u8]
    ensures { result.now ≡ name_of kind }
{
    match ROWS.get(place_of(kind)) {
        Some(row) => row.name,
        None => b"",
    }
}

/// Which plain words follow the name of a command.
pub(crate) fn shape_of(kind: Kind) -> Shape
    ensures { result ≡ shape_of kind }
{
    match ROWS.get(place_of(kind)) {
        Some(row) => row.shape,
        None => Shape::Alone,
    }
}

/// The words of a command that must be there, as help has them.
pub fn usage_of(kind: Kind) -> &'static [u8]
    ensures { result.now ≡ usage_of kind }
{
    match ROWS.get(place_of(kind)) {
        Some(row) => row.usage,
        None => b"",
    }
}

/// The options that may follow, each in brackets.
pub fn optional_of(kind: Kind) -> &'static [u8]
    ensures { result.now ≡ optional_of kind }
{
    match ROWS.get(place_of(kind)) {
        Some(row) => row.optional,
        None => b"",
    }
}

/// What a command writes, in one line.
pub fn about_of(kind: Kind) -> &'static [u8]
    ensures { result.now ≡ about_of kind }
{
    match ROWS.get(place_of(kind)) {
        Some(row) => row.about,
        None => b"",
    }
}

/// The flags of a command.
pub fn flags_of(kind: Kind) -> Names
    ensures { map (λ name. name.now) result.now ≡ flags_of kind }
{
    let Some(row) = ROWS.get(place_of(kind)) else {
        return NO_NAMES;
    };
    row.flags
}

/// The options of a command that have a value.
pub fn valued_of(kind: Kind) -> Names
    ensures { map (λ name. name.now) result.now ≡ valued_of kind }
{
    let Some(row) = ROWS.get(place_of(kind)) else {
        return NO_NAMES;
    };
    row.valued
}

/// The options that a command requires.
pub(crate) fn required_of(kind: Kind) -> Names
    ensures { map (λ name. name.now) result.now ≡ required_of kind }
{
    let Some(row) = ROWS.get(place_of(kind)) else {
        return NO_NAMES;
    };
    row.required
}

/// The formats in which a command writes a tree: one that is read from a file is written in two of them.
pub fn formats_of(kind: Kind) -> &'static [&'static [u8]]
    ensures { map (λ name. name.now) result.now ≡ formats_of kind }
{
    match kind {
        Kind::Galileo => &DRAWN_FORMATS,
        _ => &FORMATS,
    }
}

/// Whether a command has a flag of this name.
pub(crate) fn has_flag(kind: Kind, name: &[u8]) -> bool
    ensures { IsTrue result ↔ Contains (flags_of kind) name.now }
{
    is_among(flags_of(kind), name)
}

/// Whether a command has an option of this name that has a value.
pub(crate) fn has_valued(kind: Kind, name: &[u8]) -> bool
    ensures { IsTrue result ↔ Contains (valued_of kind) name.now }
{
    is_among(valued_of(kind), name)
}

/// Whether a name is among others.
pub fn is_among(names: &[&[u8]], name: &[u8]) -> bool
    ensures value { result ≡ is_among (map (λ name. name.now) names.now) name.now }
    ensures means { IsTrue result ↔ Contains (map (λ name. name.now) names.now) name.now }
{
    is_some_same(names, name)
}

/// Whether one of some names is this one.
fn is_some_same(names: &[&[u8]], name: &[u8]) -> bool
    ensures { result ≡ list_any (λ other. is_same_text other.now name.now) names.now }
{
    names.iter().any(|other| is_same(other, name))
}

/// The command of a name.
pub fn kind_named(name: &[u8]) -> Option<Kind>
    ensures { result ≡ kind_named name.now }
{
    kind_among(&KINDS, name)
}

/// The first of these commands that has a name.
fn kind_among(kinds: &[Kind], name: &[u8]) -> Option<Kind>
    ensures { result ≡ kind_among kinds.now name.now }
{
    first_named(kinds, name).copied()
}

/// The first of these commands that has a name, where it stands.
fn first_named<'k>(kinds: &'k [Kind], name: &[u8]) -> Option<&'k Kind>
    ensures { option_copied result ≡ kind_among kinds.now name.now }
{
    kinds.iter().find(|kind| is_same(name_of(**kind), name))
}

/// Each command has its row at its place, and is found by its name.
pub fn are_named()
    ensures placed { (kind : Kind) → option_map (λ row. row.kind) (slice_get ROWS (place_of kind)) ≡ Some kind }
    ensures listed { map (λ row. row.kind) ROWS ≡ KINDS }
    ensures named { (kind : Kind) → kind_named (name_of kind) ≡ Some kind }
{}
