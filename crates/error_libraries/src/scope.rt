use plain_values::List;

/// Where the names of error types of a text are looked for: the number of its package, and the numbers of the packages in
/// whose libraries a bare name is looked for, in order.
#[derive(Drop)]
pub struct Scope {
    pub package: u32,
    pub libraries: List<u32>,
}
