ghost use Rattle.std.specs.Prelude.{◌≡◌, [], ◌∷◌, ◌||◌, ◌++◌, IfOk, OnOk, codes};
ghost use Rattle.grammar_rules.specs.inner.Reader.{Gives, Begins, given};
ghost use Rattle.grammar_rules.specs.Spans.{closes};
ghost use Rattle.aadl_syntax.specs.inner.Token.{shown};
ghost use Rattle.grammar_rules.specs.Tokens.{is_sign, is_word};
ghost use Rattle.emv2_parts.specs.Words.{is_name};
ghost use Rattle.emv2_parts.specs.Properties.{begins_value, value, arrow, begins_step, form_at, form_dotted, form_named, form_raised, is_keyed, is_plain, keyed_names, path_sign, path_step, path_steps, further_targets, no_path, no_targets, with_at, with_caret, with_name, with_dot, with_target, whole_path, target_after, further_target, applied_targets, targets, assigned_value, association, properties_after};
ghost use Rattle.emv2_parts.specs.inner.Takes.{path_step-takes, further_target-takes, association-takes};

use crate::naming::names;
use crate::words::{error_name, name_at, point_at, point_name, point_word_at};
use aadl_syntax::{Association, Identifier, OtherTarget, TokenList, TokenRef};
use grammar_rules::{Gathered, Parts, ReadError, Reader, Span, closes, is_sign, is_word, spot};
use plain_values::{List, Mem, Name};

/// What a path is as far as it is read.
#[derive(Clone, Copy)]
pub(crate) enum PathForm {
    /// No token.
    Nothing,
    /// Names with single dots between them.
    Plain,
    /// The same behind `^`.
    Within,
    /// The same behind the `@` of these.
    Key,
    /// Anything else.
    Other,
}

/// A path as far as it is read: its names, its text without blanks, what it is so far, and whether its last token is a name.
#[derive(Drop)]
pub(crate) struct TargetPath {
    pub(crate) names: List<Identifier>,
    pub(crate) text: Name,
    pub(crate) form: PathForm,
    pub(crate) after_name: bool,
}

/// The paths to which an association applies: those that are names with single dots between them, and all others.
#[derive(Drop)]
pub(crate) struct AssignedTargets {
    pub(crate) plain: List<List<Identifier>>,
    pub(crate) others: List<OtherTarget>,
}

/// What follows the name of an association.
#[derive(Drop)]
pub(crate) struct AssignedValue {
    pub(crate) value: TokenList,
    pub(crate) targets: AssignedTargets,
}

fn form_named(form: PathForm, after: bool) -> PathForm
    ensures { result ≡ form_named form after }
{
    match form {
        PathForm::Nothing => PathForm::Plain,
        PathForm::Plain | PathForm::Within | PathForm::Key => {
            if after { PathForm::Other } else { form }
        }
        PathForm::Other => PathForm::Other,
    }
}

fn form_dotted(form: PathForm, after: bool) -> PathForm
    ensures { result ≡ form_dotted form after }
{
    match form {
        PathForm::Plain | PathForm::Within | PathForm::Key => {
            if after { form } else { PathForm::Other }
        }
        PathForm::Nothing | PathForm::Other => PathForm::Other,
    }
}

fn form_raised(form: PathForm) -> PathForm
    ensures { result ≡ form_raised form }
{
    match form {
        PathForm::Nothing => PathForm::Within,
        PathForm::Plain | PathForm::Within | PathForm::Key | PathForm::Other => PathForm::Other,
    }
}

fn form_at(form: PathForm, after: bool) -> PathForm
    ensures { result ≡ form_at form after }
{
    match form {
        PathForm::Within => {
            if after {
                PathForm::Key
            } else {
                PathForm::Other
            }
        }
        PathForm::Nothing | PathForm::Plain | PathForm::Key | PathForm::Other => PathForm::Other,
    }
}

/// Adds bytes at the end of a text.
fn put(text: &mut Name, bytes: &[u8]) -> Mem<()>
    ensures { OnOk result (text.new ≡ text.old ++ bytes.now) }
{
    for byte in bytes {
        text.push(*byte)?;
    }
    Ok(())
}

fn with_name(path: &mut TargetPath, name: Identifier) -> Mem<()>
    ensures { IfOk result (λ _. path.new ≡ with_name path.old name) }
{
    put(&mut path.text, name.text())?;
    path.names.push(name)?;
    path.form = form_named(path.form, path.after_name);
    path.after_name = true;
    Ok(())
}

fn with_dot(path: &mut TargetPath) -> Mem<()>
    ensures { IfOk result (λ _. path.new ≡ with_dot path.old) }
{
    put(&mut path.text, b".")?;
    path.form = form_dotted(path.form, path.after_name);
    path.after_name = false;
    Ok(())
}

fn with_caret(path: &mut TargetPath) -> Mem<()>
    ensures { IfOk result (λ _. path.new ≡ with_caret path.old) }
{
    put(&mut path.text, b"^")?;
    path.form = form_raised(path.form);
    path.after_name = false;
    Ok(())
}

fn with_at(path: &mut TargetPath) -> Mem<()>
    ensures { IfOk result (λ _. path.new ≡ with_at path.old) }
{
    put(&mut path.text, b"@")?;
    path.form = form_at(path.form, path.after_name);
    path.after_name = false;
    Ok(())
}

fn is_plain(form: PathForm) -> bool
    ensures { result ≡ is_plain form }
{
    match form {
        PathForm::Plain => true,
        PathForm::Nothing | PathForm::Within | PathForm::Key | PathForm::Other => false,
    }
}

fn is_keyed(form: PathForm) -> bool
    ensures { result ≡ is_keyed form }
{
    match form {
        PathForm::Key => true,
        PathForm::Nothing | PathForm::Plain | PathForm::Within | PathForm::Other => false,
    }
}

/// A path that is more than names with single dots between them.
fn other_of(path: TargetPath) -> OtherTarget
    ensures { result ≡ record { text = path.text; names = keyed_names path } }
{
    let has_key = is_keyed(path.form) && path.after_name;
    let TargetPath { names, text, .. } = path;
    let names = if has_key { Some(names) } else { None };
    OtherTarget { text, names }
}

fn with_target(targets: &mut AssignedTargets, path: TargetPath) -> Mem<()>
    ensures { IfOk result (λ _. targets.new ≡ with_target targets.old path) }
{
    if is_plain(path.form) && path.after_name {
        targets.plain.push(path.names)?;
    } else {
        targets.others.push(other_of(path))?;
    }
    Ok(())
}

// The tokens of a value.
struct ValueTokens;

impl Span for ValueTokens {
    ghost use Rattle.emv2_parts.specs.Properties.{ends_value};

    ghost stops = { ends_value };

    #[tactic(auto, unfolding(crate::specs::Properties::ends_value))]
    fn stops_at(_before: Option<TokenRef>, token: &TokenRef) -> bool {
        is_value_end(token)
    }
}

fn is_value_end(token: &TokenRef) -> bool
    ensures { result ≡ (closes (shown token.now) || is_sign (codes ";") (shown token.now) || is_word (codes "applies") (shown token.now)) }
{
    closes(token) || is_sign(token, b";") || is_word(token, b"applies")
}

#[tactic(auto, unfolding(crate::specs::Properties::begins_value))]
fn value_at(reader: &mut Reader) -> bool
    ensures { Begins result 0 (begins_value ∷ []) reader.old reader.new }
{
    match reader.look(0) {
        Some(token) => !is_value_end(&token),
        None => false,
    }
}

#[tactic(auto, unfolding(crate::specs::Properties::begins_step))]
fn step_at(reader: &mut Reader) -> bool
    ensures { Begins result 0 (begins_step ∷ []) reader.old reader.new }
{
    point_at(reader)
        || reader.sign_at(0, b".")
        || reader.sign_at(0, b"^")
        || reader.sign_at(0, b"@")
}

/// Copies the tokens of a value; at least one.
#[tactic(auto, unfolding(crate::specs::Properties::value))]
fn value(reader: &mut Reader) -> Result<TokenList, ReadError>
    ensures { Gives result value reader.old reader.new }
{
    if !value_at(reader) {
        return Err(ReadError::Refused);
    }
    let tokens = reader.until_inside::<ValueTokens>()?;
    Ok(tokens.copied(reader.alloc())?)
}

#[tactic(auto, unfolding(crate::specs::Properties::arrow))]
fn arrow(reader: &mut Reader) -> Result<(), ReadError>
    ensures { Gives result arrow reader.old reader.new }
{
    if reader.sign_at(0, b"=>") {
        return reader.sign(b"=>");
    }
    reader.sign(b"+=>")
}

#[tactic(auto, unfolding(crate::specs::Properties::path_sign))]
fn path_sign(reader: &mut Reader, path: &mut TargetPath) -> Result<(), ReadError>
    ensures { Gives (given result path.new) (path_sign path.old) reader.old reader.new }
{
    if reader.sign_at(0, b"^") {
        reader.sign(b"^")?;
        return Ok(with_caret(path)?);
    }
    reader.sign(b"@")?;
    Ok(with_at(path)?)
}

#[tactic(auto, unfolding(crate::specs::Properties::path_step))]
fn path_step(reader: &mut Reader, path: &mut TargetPath) -> Result<(), ReadError>
    ensures { Gives (given result path.new) (path_step path.old) reader.old reader.new }
{
    if name_at(reader, 0) {
        let name = error_name(reader)?;
        return Ok(with_name(path, name)?);
    }
    if point_word_at(reader, 0) {
        let name = point_name(reader)?;
        return Ok(with_name(path, name)?);
    }
    if reader.sign_at(0, b".") {
        reader.sign(b".")?;
        return Ok(with_dot(path)?);
    }
    path_sign(reader, path)
}

// The first step of a path.
fn first_step(reader: &mut Reader) -> Result<TargetPath, ReadError>
    ensures { Gives result (path_step no_path) reader.old reader.new }
{
    let mut path = TargetPath {
        names: List::new(reader.alloc()),
        text: List::new(reader.alloc()),
        form: PathForm::Nothing,
        after_name: false,
    };
    path_step(reader, &mut path)?;
    Ok(path)
}

#[tactic(auto, unfolding(crate::specs::Properties::path_steps))]
fn path_steps(reader: &mut Reader, path: &mut TargetPath) -> Result<(), ReadError>
    ensures { Gives (given result path.new) (path_steps path.old) reader.old reader.new }
{
    reader.gather::<PathSteps>(path)
}

#[tactic(auto, unfolding(crate::specs::Properties::whole_path))]
fn whole_path(reader: &mut Reader) -> Result<TargetPath, ReadError>
    ensures { Gives result whole_path reader.old reader.new }
{
    let mut path = first_step(reader)?;
    path_steps(reader, &mut path)?;
    Ok(path)
}

#[tactic(auto, unfolding(crate::specs::Properties::further_targets))]
fn further_targets(reader: &mut Reader, targets: &mut AssignedTargets) -> Result<(), ReadError>
    ensures { Gives (given result targets.new) (further_targets targets.old) reader.old reader.new }
{
    reader.gather::<FurtherTargets>(targets)
}

/// Reads a path, and gives the targets with it.
#[tactic(auto, unfolding(crate::specs::Properties::target_after))]
fn target_after(reader: &mut Reader, targets: &mut AssignedTargets) -> Result<(), ReadError>
    ensures { Gives (given result targets.new) (target_after targets.old) reader.old reader.new }
{
    let path = whole_path(reader)?;
    Ok(with_target(targets, path)?)
}

#[tactic(auto, unfolding(crate::specs::Properties::further_target))]
fn further_target(reader: &mut Reader, targets: &mut AssignedTargets) -> Result<(), ReadError>
    ensures { Gives (given result targets.new) (further_target targets.old) reader.old reader.new }
{
    reader.sign(b",")?;
    target_after(reader, targets)
}

#[tactic(auto, unfolding(crate::specs::Properties::applied_targets))]
fn applied_targets(reader: &mut Reader, targets: &mut AssignedTargets) -> Result<(), ReadError>
    ensures { Gives (given result targets.new) (applied_targets targets.old) reader.old reader.new }
{
    reader.word(b"applies")?;
    reader.word(b"to")?;
    target_after(reader, targets)?;
    further_targets(reader, targets)
}

#[tactic(auto, unfolding(crate::specs::Properties::targets))]
fn targets(reader: &mut Reader) -> Result<AssignedTargets, ReadError>
    ensures { Gives result targets reader.old reader.new }
{
    let mut targets = AssignedTargets {
        plain: List::new(reader.alloc()),
        others: List::new(reader.alloc()),
    };
    if reader.word_at(0, b"applies") {
        applied_targets(reader, &mut targets)?;
    }
    Ok(targets)
}

#[tactic(auto, unfolding(crate::specs::Properties::assigned_value))]
fn assigned_value(reader: &mut Reader) -> Result<AssignedValue, ReadError>
    ensures { Gives result assigned_value reader.old reader.new }
{
    arrow(reader)?;
    let value = value(reader)?;
    let targets = targets(reader)?;
    reader.sign(b";")?;
    Ok(AssignedValue { value, targets })
}

#[tactic(auto, unfolding(crate::specs::Properties::association))]
fn association(reader: &mut Reader) -> Result<Association, ReadError>
    ensures { Gives result association reader.old reader.new }
{
    let spot = spot(reader)?;
    let name = names(reader)?;
    let AssignedValue { value, targets } = assigned_value(reader)?;
    let AssignedTargets { plain, others } = targets;
    Ok(Association {
        name,
        spot,
        value,
        targets: plain,
        others,
    })
}

/// Reads a block of property associations, and gives them after others.
#[tactic(auto, unfolding(crate::specs::Properties::properties_after))]
pub fn properties_after(
    reader: &mut Reader,
    associations: &mut List<Association>,
) -> Result<(), ReadError>
    ensures { Gives (given result associations.new) (properties_after associations.old) reader.old reader.new }
{
    reader.word(b"properties")?;
    reader.more_parts::<Associations>(associations)
}

// The steps of a path.
pub(crate) struct PathSteps;

impl Gathered for PathSteps {
    type Whole = TargetPath;

    ghost tests = { begins_step ∷ [] };

    ghost rule = { path_step };

    fn begins(reader: &mut Reader) -> bool {
        step_at(reader)
    }

    fn part(reader: &mut Reader, whole: &mut TargetPath) -> Result<(), ReadError> {
        path_step(reader, whole)
    }

    ghost takes_tokens = { path_step-takes };
}

// Further paths to which an association applies.
pub(crate) struct FurtherTargets;

impl Gathered for FurtherTargets {
    type Whole = AssignedTargets;

    ghost tests = { is_sign (codes ",") ∷ [] };

    ghost rule = { further_target };

    fn begins(reader: &mut Reader) -> bool {
        reader.sign_at(0, b",")
    }

    fn part(reader: &mut Reader, whole: &mut AssignedTargets) -> Result<(), ReadError> {
        further_target(reader, whole)
    }

    ghost takes_tokens = { further_target-takes };
}

// The associations of a block.
pub(crate) struct Associations;

impl Parts for Associations {
    type Part = Association;

    ghost tests = { is_name ∷ [] };

    ghost rule = { association };

    fn begins(reader: &mut Reader) -> bool {
        name_at(reader, 0)
    }

    fn part(reader: &mut Reader) -> Result<Association, ReadError> {
        association(reader)
    }

    ghost takes_tokens = { association-takes };
}
