ghost use Rattle.std.specs.Prelude.{◌≡◌, false};
ghost use Rattle.std.specs.Option.{option_map_or};
ghost use Rattle.package_index.specs.Names.{only};
ghost use Rattle.propagation_links.specs.Ends.{access_end, access_or_none, connection_end, is_called_as_word, is_empty, is_point_word, is_subcomponent, path_end, point_of, point_or_access};

use crate::pointed::Pointed;
use aadl_syntax::Identifier;
use plain_values::is_same;
use propagation_points::only_name;

/// An end of a connection or a path: the point of this place in the list of a component, and whether that is the
/// component itself in which the connection or the path stands.
#[derive(Clone, Copy, PartialEq, Eq)]
pub(crate) struct FoundEnd {
    pub component: u32,
    pub point: u32,
    pub own: bool,
}

impl<'s, 'i, 'a> Pointed<'s, 'i, 'a> {
    /// The end of these names in the component of a number: a path of subcomponents, and a point.
    pub(crate) fn path_end(&self, number: u32, names: &[Identifier]) -> Option<FoundEnd>
        ensures { result ≡ path_end self.now number names.now }
    {
        let (last, front) = names.split_last()?;
        let component = self.instance().find_below(number, front)?;
        self.point_of(is_empty(front), component, last.text())
    }

    /// The end of a connection: a feature or a point of the component's own comes before a subcomponent of that name, which in
    /// a connection of an access stands for its point `access`, and a subcomponent before the point of a word.
    pub(crate) fn connection_end(
        &self,
        number: u32,
        access: bool,
        names: &[Identifier],
    ) -> Option<FoundEnd>
        ensures { result ≡ connection_end self.now number access names.now }
    {
        if self.is_called_as_word(number, names) {
            self.access_or_none(number, access, names)
        } else {
            self.point_or_access(number, access, names)
        }
    }

    fn point_or_access(&self, number: u32, access: bool, names: &[Identifier]) -> Option<FoundEnd>
        ensures { result ≡ point_or_access self.now number access names.now }
    {
        match self.path_end(number, names) {
            Some(end) => Some(end),
            None => self.access_or_none(number, access, names),
        }
    }

    /// Whether names are that of a subcomponent alone.
    pub(crate) fn is_subcomponent(&self, number: u32, names: &[Identifier]) -> bool
        ensures { result ≡ is_subcomponent self.now number names.now }
    {
        names.len() == 1 && self.instance().find_below(number, names).is_some()
    }

    /// Whether names are that of a subcomponent alone which is called like a word for a point.
    pub(crate) fn is_called_as_word(&self, number: u32, names: &[Identifier]) -> bool
        ensures { result ≡ is_called_as_word self.now number names.now }
    {
        is_word(names) && self.is_subcomponent(number, names)
    }

    fn access_or_none(&self, number: u32, access: bool, names: &[Identifier]) -> Option<FoundEnd>
        ensures { result ≡ access_or_none access self.now number names.now }
    {
        if access {
            self.access_end(number, names)
        } else {
            None
        }
    }

    fn access_end(&self, number: u32, names: &[Identifier]) -> Option<FoundEnd>
        ensures { result ≡ access_end self.now number names.now }
    {
        if names.len() != 1 {
            return None;
        }
        let component = self.instance().find_below(number, names)?;
        self.point_of(false, component, b"access")
    }

    /// The point of a name of a component, as an end.
    pub(crate) fn point_of(&self, own: bool, component: u32, name: &[u8]) -> Option<FoundEnd>
        ensures { result ≡ point_of self.now own component name.now }
    {
        let point = self.place(component, name)?;
        Some(FoundEnd {
            component,
            point,
            own,
        })
    }
}

fn is_empty(names: &[Identifier]) -> bool
    ensures { result ≡ is_empty names.now }
{
    match names {
        [] => true,
        _ => false,
    }
}

/// Whether names are one of the words that stand for points, and no more.
fn is_word(names: &[Identifier]) -> bool
    ensures { result ≡ option_map_or is_point_word (only names.now) false }
{
    match only_name(names) {
        Some(name) => is_point_word(name.text()),
        None => false,
    }
}

/// Whether a name is one of the words that stand for points.
pub(crate) fn is_point_word(name: &[u8]) -> bool
    ensures { result ≡ is_point_word name.now }
{
    is_same(b"processor", name)
        || is_same(b"memory", name)
        || is_same(b"connection", name)
        || is_same(b"binding", name)
        || is_same(b"bindings", name)
        || is_same(b"access", name)
}
