ghost use Rattle.std.specs.Prelude.{◌≡◌, ◌++◌, IfOk, OnOk};
ghost use Rattle.component_extension.specs.Items.{class_of, classes_of};

use crate::in_package::InPackage;
use aadl_syntax::Decl;
use package_index::{ClassifierId, Index};
use plain_values::{List, Mem};
use std::alloc::Global;

/// A classifier of a chain, by its declaration.
pub type Classifier<'a> = InPackage<'a, Decl>;

/// The classifiers of a chain, the farthest first.
pub fn classifiers_of<'a>(
    alloc: Global,
    index: &Index<'a>,
    chain: &[ClassifierId],
) -> Mem<List<Classifier<'a>>>
    ensures { IfOk result (λ classifiers. classifiers ≡ classes_of index.now chain.now) }
{
    let mut classifiers = List::new(alloc);
    for id in chain.iter().rev() {
        add_classifier(&mut classifiers, index, *id)?;
    }
    Ok(classifiers)
}

fn add_classifier<'a>(
    classifiers: &mut List<Classifier<'a>>,
    index: &Index<'a>,
    id: ClassifierId,
) -> Mem<()>
    ensures { OnOk result (classifiers.new ≡ classifiers.old ++ class_of index.now id) }
{
    if let Some(decl) = index.decl(id) {
        classifiers.push(InPackage::new(id.package, decl))?;
    }
    Ok(())
}
