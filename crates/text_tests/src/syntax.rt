//! Names, lists, codes and the order of refusals.

use plain_values::{Code, FirstRefusal, List, Place, Refusal, fold, is_same};
use std::test::Fail;

#[test]
fn folds_letters(rt: HostRuntime) -> Result<(), Fail> {
    let name = fold(rt.alloc(), b"@AZ[`az{_9\xc4")?;
    assert_eq!(rt; name.items(), b"@az[`az{_9\xc4".as_slice());
    assert!(rt; is_same(name.items(), b"@az[`az{_9\xc4"));
    assert!(rt; !is_same(name.items(), b"@az[`az{_9"));
    Ok(())
}

#[test]
fn keeps_items_in_order(rt: HostRuntime) -> Result<(), Fail> {
    let mut list = List::of(vec![in rt.alloc(); 3u32, 1]?)?;
    list.push(2)?;
    assert_eq!(rt; list.items(), [3, 1, 2].as_slice());
    let empty: List<u32> = List::new(rt.alloc());
    assert!(rt; empty.items().is_empty());
    Ok(())
}

#[test]
fn names_codes(rt: HostRuntime) {
    assert_eq!(rt; Code::BadByte.text(), "L1 BadByte");
    assert_eq!(rt; Code::TooMuchText.text(), "M13 TooMuchText");
    assert_eq!(rt; Code::UnknownTarget.text(), "T1 UnknownTarget");
}

fn refusal(code: Code, place: Place) -> Refusal {
    Refusal {
        code,
        place,
        limit: 0,
    }
}

fn at(file: u32, at: u32) -> Place {
    Place::At { file, at }
}

/// Whether the second of two refusals is the first by their order, however they are noted.
fn is_first(later_code: Code, later_place: Place, code: Code, place: Place) -> bool {
    let first = refusal(code, place);
    let later = refusal(later_code, later_place);
    let mut noted = FirstRefusal::new();
    let none = noted.settle() == Ok(());
    noted.note(later);
    let alone = noted.settle() == Err(later);
    noted.note(first);
    noted.note(later);
    none && alone && noted.settle() == Err(first)
}

// Files go by number before bytes do, and a whole file comes before its bytes, the words before all files.
fn places_in_order() -> bool {
    is_first(Code::BadByte, at(1, 0), Code::OpenAnnex, at(0, 9))
        && is_first(Code::BadByte, at(0, 9), Code::OpenAnnex, at(0, 3))
        && is_first(Code::BadByte, at(3, 0), Code::FileTooLong, Place::Whole(3))
        && is_first(
            Code::FileTooLong,
            Place::Whole(3),
            Code::FileTooLong,
            Place::Whole(2),
        )
        && is_first(Code::BadByte, at(0, 0), Code::BadToken, Place::Words)
}

// At one place the row of the code decides.
fn codes_in_order() -> bool {
    is_first(
        Code::TooMuchText,
        Place::Words,
        Code::TooManyFiles,
        Place::Words,
    ) && is_first(Code::TooNested, at(0, 4), Code::TooMuchText, at(0, 4))
        && is_first(Code::BadToken, at(2, 7), Code::UnknownTarget, at(2, 7))
}

#[test]
fn refuses_with_the_first(rt: HostRuntime) {
    assert!(rt; places_in_order());
    assert!(rt; codes_in_order());
}
