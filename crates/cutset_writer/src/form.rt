/// How the events of a set stand in its line.
#[derive(Clone, Copy)]
pub enum SetForm {
    /// Behind a blank, the names with `+` between them, or `none`: the text that is a page token.
    Token,
    /// The names in quotes with a blank before each, or ` none`.
    Quoted,
}
