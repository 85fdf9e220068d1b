//! Each law of the definitions called once, and the numbers with which the program ends.

use aadl_lexer::{one_fault, one_list};
use aadl_parser::one_file;
use fta_run::{Status, one_due, one_output};
use plain_values::{Code, Place, Refusal, least_is_first, one_first};

#[test]
fn laws(_rt: HostRuntime) {
    least_is_first();
    one_first();
    one_list();
    one_fault();
    one_file();
    one_output();
    one_due();
}

#[test]
fn exit_numbers(rt: HostRuntime) {
    let refusal = Refusal {
        code: Code::UnknownTarget,
        place: Place::Words,
        limit: 0,
    };
    let rows = [
        (Status::Done, 0),
        (Status::Unmet, 8),
        (Status::Usage, 1),
        (Status::Refused(refusal), 2),
        (Status::ReadFault(3), 4),
        (Status::WriteFault, 5),
        (Status::ReportFault(2), 6),
        (Status::Memory, 7),
    ];
    for (status, number) in &rows {
        assert!(rt; status.exit() == *number);
    }
}
