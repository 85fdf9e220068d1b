//! A model that is made from a number.

ghost use Rattle.std.specs.Prelude.{◌≡◌, IfOk};
ghost use Rattle.phases.specs.Phases.{Passes};
ghost use Rattle.phases.specs.inner.Meets.{IsMemory, MeetsBut};
ghost use Rattle.backward_slice.specs.Slices.{IsSlice};
ghost use Rattle.model_phases.specs.Named.{IsPlainModel};
ghost use Rattle.fta_run.specs.Due.{made_model_text, made_root, made_target, make_text, sized_page, sized_text};
ghost use Rattle.fta_run.specs.inner.Ready.{held_text};

use crate::input::texts_of_one;
use crate::model::model_of_texts;
use crate::ready::Held;
use crate::text::numbers_of;
use backward_slice::Slice;
use cutset_writer::{ListingPage, SetForm};
use model_maker::model_text;
use model_phases::FlatModel;
use phases::Status;
use plain_values::{List, Mem, Name, Root, copied};
use profiles::Profile;
use std::alloc::Global;
use system_answers::{find_slice, find_target, page_writer};
use zdd_store::Store;

/// What is said of the model that is made of a number, or its text.
pub fn make(alloc: Global, number: u32, text: bool) -> Result<Held, Status>
    ensures { MeetsBut IsMemory held_text (make_text number text) result }
{
    let made = model_text(alloc, number)?;
    if text {
        return Ok(Held::Bytes(made));
    }
    made_model(alloc, made)
}

/// What is said of the model in a file with this text.
fn made_model(alloc: Global, text: Name) -> Result<Held, Status>
    ensures { MeetsBut IsMemory held_text (made_model_text text) result }
{
    let texts = texts_of_one(alloc, text)?;
    let root = made_root(alloc)?;
    let model = model_of_texts(alloc, Profile::First, &root, texts.items())?;
    sized(alloc, model)
}

/// The root of a model that is made.
fn made_root(alloc: Global) -> Mem<Root>
    ensures { IfOk result (λ root. root ≡ made_root) }
{
    let mut names = List::new(alloc);
    names.push(copied(alloc, b"gen")?)?;
    names.push(copied(alloc, b"s")?)?;
    let item = copied(alloc, b"i")?;
    Ok(Root {
        names,
        item: Some(item),
    })
}

/// The numbers of a model, and the page of its target's listing.
fn sized(alloc: Global, model: FlatModel) -> Result<Held, Status>
    requires { IsPlainModel model }
    ensures { MeetsBut IsMemory held_text (sized_text model) result }
{
    let target = made_target(alloc)?;
    let number = find_target(&model.system, &target)?;
    let part = find_slice(alloc, &model.system, number)?;
    Ok(sized_page(alloc, model, &part)?)
}

/// The target of a model that is made.
fn made_target(alloc: Global) -> Mem<Name>
    ensures { IfOk result (λ name. name ≡ made_target) }
{
    copied(alloc, b"root/state:bad")
}

/// The numbers of a model, and the page of the listing of the target of a slice: its first three sets.
fn sized_page(alloc: Global, model: FlatModel, part: &Slice) -> Mem<Held>
    requires { IsSlice model.system part.now.target part.now }
    ensures { IfOk result (λ held. Passes (sized_page part.now.target model) (held_text held)) }
{
    let system = model.system;
    let mut store = Store::new(alloc);
    let writer = page_writer(alloc, &system, part, None, &mut store)?;
    let numbers = numbers_of(alloc, model.components, &system)?;
    let page = ListingPage::new(system, store, writer, SetForm::Token, None, Some(3));
    Ok(Held::Sized(numbers, page))
}
