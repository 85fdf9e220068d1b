//! Whether a written set has `noerror`, by itself or by a set that it names.

ghost use Rattle.std.specs.Prelude.{◌≡◌, IfOk, false, option_copied};
ghost use Rattle.std.specs.List.{list_any};
ghost use Rattle.error_libraries.specs.Libraries.{item_at};
ghost use Rattle.error_types.specs.NoError.{is_no_error, is_quiet_item, term_has_no_error};
ghost use Rattle.error_types.specs.Walk.{reached};

use crate::walk::walk_from;
use aadl_syntax::{Term, TypeItem, TypeKind};
use error_libraries::{Declarations, ItemId, Scope};
use plain_values::{FirstRefusal, Mem};
use std::alloc::Global;

/// Whether one of terms is `noerror`, or names a set that has it.
pub(crate) fn any_has_no_error<'a>(
    alloc: Global,
    declarations: &mut Declarations<'_, 'a>,
    scope: &Scope,
    terms: &'a [Term],
) -> Mem<bool>
    ensures kept { declarations.new ≡ declarations.old }
    ensures so { IfOk result (λ so. so ≡ list_any (term_has_no_error declarations.old scope.now) terms.now) }
{
    for term in terms {
        if has_no_error(alloc, declarations, scope, term)? {
            return Ok(true);
        }
    }
    Ok(false)
}

/// The same of a term.
fn has_no_error<'a>(
    alloc: Global,
    declarations: &mut Declarations<'_, 'a>,
    scope: &Scope,
    term: &'a Term,
) -> Mem<bool>
    ensures kept { declarations.new ≡ declarations.old }
    ensures so { IfOk result (λ so. so ≡ term_has_no_error declarations.old scope.now term.now) }
{
    match term {
        Term::NoError(_) => Ok(true),
        Term::Product(_) => Ok(false),
        Term::One(reference) => {
            let mut first = FirstRefusal::new();
            let target = declarations.named(alloc, scope, reference, &mut first)?;
            leads_to_no_error(alloc, declarations, target)
        }
    }
}

/// Whether one of the items that are followed from what a name means is a set with `noerror`.
fn leads_to_no_error(
    alloc: Global,
    declarations: &mut Declarations<'_, '_>,
    target: Option<ItemId>,
) -> Mem<bool>
    ensures kept { declarations.new ≡ declarations.old }
    ensures so { IfOk result (λ so. so ≡ list_any (λ id. is_quiet_item (item_at declarations.old.libraries id)) (reached false declarations.old target).followed) }
{
    let Some(id) = target else {
        return Ok(false);
    };
    let walked = walk_from(alloc, false, declarations, id)?;
    Ok(any_quiet(declarations, walked.followed.as_slice()))
}

/// Whether one of these items is a set with `noerror`.
fn any_quiet(declarations: &Declarations<'_, '_>, ids: &[ItemId]) -> bool
    ensures { result ≡ list_any (λ id. is_quiet_item (item_at declarations.now.libraries id)) ids.now }
{
    ids.iter().any(|id| is_quiet_item(declarations.item(*id)))
}

/// Whether an item, if there is one, is a set with `noerror` among its own terms.
fn is_quiet_item(item: Option<&TypeItem>) -> bool
    ensures { result ≡ is_quiet_item (option_copied item.entry) }
{
    match item {
        Some(item) => match &item.kind {
            TypeKind::Set(set) => any_no_error(set.terms.items()),
            _ => false,
        },
        None => false,
    }
}

fn any_no_error(terms: &[Term]) -> bool
    ensures { result ≡ list_any is_no_error terms.now }
{
    terms.iter().any(|term| is_no_error(term))
}

fn is_no_error(term: &Term) -> bool
    ensures { result ≡ is_no_error term.now }
{
    matches!(term, Term::NoError(_))
}
