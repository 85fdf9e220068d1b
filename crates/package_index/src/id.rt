/// A classifier by numbers, which begin at 0: of its package, in the order of the files and of the text, and of its
/// declaration in the package.
#[derive(Clone, Copy, PartialEq, Eq)]
pub struct ClassifierId {
    pub package: u32,
    pub decl: u32,
}
