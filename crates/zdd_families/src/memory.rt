//! What the store remembers of the operations.
ghost use Rattle.std.specs.Prelude.{◌≡◌, IfSome, IfOk};
ghost use Rattle.zdd_store.specs.inner.Answers.{IsAnswer};

use plain_values::Mem;
use zdd_store::{Id, Question, Store};

/// The family that is remembered as the answer, if there is one.
pub(crate) fn known(store: &Store, question: Question) -> Option<Id>
    ensures { IfSome result (λ id. IsAnswer store.now question id.position) }
{
    match store.recall(question) {
        Some(position) => Some(Id { position }),
        None => None,
    }
}

/// Remembers an answer, and gives it back.
pub(crate) fn note(store: &mut Store, question: Question, answer: Id) -> Mem<Id>
    requires { IsAnswer store.old question answer.position }
    ensures same { store.new ≡ store.old }
    ensures right { IfOk result (λ id. IsAnswer store.new question id.position) }
{
    store.remember(question, answer.position)?;
    Ok(answer)
}

/// The family that is kept as the answer, if there is one.
pub(crate) fn kept(store: &Store, question: Question) -> Option<Id>
    ensures { IfSome result (λ id. IsAnswer store.now question id.position) }
{
    match store.recall_kept(question) {
        Some(position) => Some(Id { position }),
        None => None,
    }
}

/// Keeps an answer, and gives it back.
pub(crate) fn keep(store: &mut Store, question: Question, answer: Id) -> Mem<Id>
    requires { IsAnswer store.old question answer.position }
    ensures same { store.new ≡ store.old }
    ensures right { IfOk result (λ id. IsAnswer store.new question id.position) }
{
    store.keep(question, answer.position)?;
    Ok(answer)
}
